// Plan texts, read into a list of entries.
ghost use Rattle.std.specs.Prelude.{◌≡◌, ◌≤◌, IfOk};
ghost use Rattle.arrayvec.specs.ArrayVec.{array_vec_len};
ghost use Rattle.limits.specs.Limits.{most_entries};
ghost use Rattle.lists.specs.PlanText.{read_plan};
ghost use Rattle.lists.specs.Listed.{listed_as};

use crate::counted::{Ranges, read_list};
use arrayvec::ArrayVec;
use limits::ENTRIES;

// Reads any bytes as a plan text whose entries come under this key and are below the bound, in place
// of what the entries held; or answers at which line it is refused. On a refusal nothing is said of
// the entries.
pub fn read_plan(
    text: &[u8],
    key: &[u8],
    bound: u16,
    entries: &mut ArrayVec<u16, ENTRIES>,
) -> Result<(), usize>
    ensures is { listed_as result entries.new ≡ read_plan key.now bound text.now }
    ensures few { IfOk result (λ _. array_vec_len entries.new ≤ most_entries) }
{
    let ranges = Ranges {
        least: 0,
        most: ENTRIES as u16,
        first: u32::from(bound),
        rest: u32::from(bound),
    };
    read_list(text, b"plan", key, ranges, entries)
}
