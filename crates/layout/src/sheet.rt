// The sheet of a plan.
ghost use Rattle.std.specs.Prelude.{◌≡◌, ◌-◌, ◌*◌, ◌≤◌, length, replicate};
ghost use mathlib.Core.List.{map, flatten};
ghost use Rattle.std.proofs.lemmas.List.Edits.{sets};
ghost use Rattle.limits.specs.Limits.{most_entries};
ghost use Rattle.domain.specs.Domain.{domain_at};
ghost use Rattle.domain.specs.Entries.{EntriesBelow};
ghost use Rattle.layout.specs.Sheet.{line_size, line_bytes, plan_lines, page_lines, blank_line, sheet_of, sheet_size};

use crate::line::{LINE, SheetLine, put_blank, put_line};
use domain::world::World;
use job::task::Task;

// Lines of a page.
const PAGE: usize = 60;

// How many bytes a sheet may have. A constant's value calls no function, so it is rounded up by `/`
// and `*`.
pub const SHEET: usize = (limits::ENTRIES + PAGE - 1) / PAGE * PAGE * LINE;

// How many lines the pages of so many rows have.
fn page_lines(count: usize) -> usize
    requires { count ≤ most_entries }
    ensures { result ≡ page_lines count }
{
    count.next_multiple_of(PAGE)
}

// How many bytes the sheet of so many moves has.
pub fn sheet_size(count: usize) -> usize
    requires { count ≤ most_entries }
    ensures { result ≡ sheet_size count }
{
    page_lines(count) * LINE
}

// Writes a line for each move, up to the first that is not applicable, and answers how many.
fn put_lines(task: &Task, plan: &[u16], out: &mut [u8]) -> usize
    requires entries_below { EntriesBelow plan.now (domain_at task.now).moves }
    requires room { length plan.now * line_size ≤ length out.old }
    ensures lines { out.new ≡ sets out.old 0 (flatten (map line_bytes (plan_lines (domain_at task.now) plan.now))) }
    ensures count { result ≡ length (plan_lines (domain_at task.now) plan.now) }
    ensures within { result ≤ length plan.now }
{
    let mut state = domain::states::start(task);
    let mut total = 0;
    for (i, &m) in plan.iter().enumerate() {
        let world = World::at(task, state);
        let cost = world.cost(m);
        total += cost;
        let line = SheetLine {
            row: i as u64 + 1,
            action: m as u64,
            cost,
            total,
        };
        // No chunks_exact_mut: what is written through a chunk is lost to the proof.
        put_line(out, i * LINE, line);
        let Some(next) = world.successor(m) else {
            return i + 1;
        };
        state = next;
    }
    plan.len()
}

// Fills the last page of so many lines with lines of spaces.
fn fill_page(out: &mut [u8], count: usize)
    requires few { count ≤ most_entries }
    requires room { sheet_size count ≤ length out.old }
    ensures { out.new ≡ sets out.old (count * line_size) (flatten (replicate (page_lines count - count) blank_line)) }
{
    for i in count..page_lines(count) {
        put_blank(out, i * LINE);
    }
}

// Writes the sheet of a plan over the front of the output.
pub fn put_sheet(task: &Task, plan: &[u16], out: &mut [u8])
    requires entries_below { EntriesBelow plan.now (domain_at task.now).moves }
    requires room { sheet_size (length plan.now) ≤ length out.old }
    ensures { out.new ≡ sets out.old 0 (sheet_of (domain_at task.now) plan.now) }
{
    let count = put_lines(task, plan, out);
    fill_page(out, count);
}
