// The numbers of a right line taken in.
ghost use Rattle.std.specs.Prelude.{◌≡◌, List, ℕ, ◌-◌, length};
ghost use Rattle.job.specs.Stored.{Limited};
ghost use Rattle.job.specs.ReadJob.{past as past_of, again as again_of, after_row, after_one, due_after, effects_after};
ghost use Rattle.job.specs.ReadJob.{taken_one, taken_row, taken};
ghost use Rattle.job.specs.Store.{store_size, list_of};
ghost use Rattle.reader.specs.Reading.{reading_of, head_after, place_of, one_more};
ghost use Rattle.reader.specs.Room.{Room};

use job::head::{Counts, Head};
use job::line::{Heading, Line, RowSort};
use job::rows::{EFFECTS_FROM, MOVES_FROM, PROGRAM_FROM, WIDTH};

// A text that is being read: the line that comes next, how many rows are due by the number of the
// last line of one number, how many effects of the last move are due, and the head so far.
#[derive(Clone, Copy)]
pub struct ReaderState {
    pub next: Line,
    pub due: u16,
    pub effects: u16,
    pub head: Head,
}

fn past(sort: RowSort) -> Line
    ensures { result ≡ past_of sort }
{
    match sort {
        RowSort::Formula => Line::One(Heading::Moves),
        RowSort::Move | RowSort::Effect => Line::One(Heading::Goal),
        RowSort::Row => Line::End,
    }
}

fn again(sort: RowSort) -> RowSort
    ensures { result ≡ again_of sort }
{
    match sort {
        RowSort::Effect => RowSort::Move,
        _ => sort,
    }
}

fn after_row(sort: RowSort, due: u16, effects: u16) -> Line
    ensures { result ≡ after_row sort due effects }
{
    match (effects, due) {
        (0, 0) => past(sort),
        (0, _) => Line::Of(again(sort)),
        _ => Line::Of(RowSort::Effect),
    }
}

fn after_one(heading: Heading, n: u16) -> Line
    ensures { result ≡ after_one heading n }
{
    match heading {
        Heading::Job => Line::One(Heading::Facts),
        Heading::Facts => Line::One(Heading::Init),
        Heading::Init => Line::One(Heading::Formulas),
        Heading::Formulas => after_row(RowSort::Formula, n, 0),
        Heading::Moves => after_row(RowSort::Move, n, 0),
        Heading::Goal => Line::One(Heading::Objects),
        Heading::Objects => Line::One(Heading::Program),
        Heading::Program => after_row(RowSort::Row, n, 0),
    }
}

fn head_after(heading: Heading, n: u16, head: Head) -> Head
    ensures { result ≡ head_after heading n head }
{
    let mut h = head;
    match heading {
        Heading::Facts => h.counts.facts = n,
        Heading::Init => h.init = n,
        Heading::Goal => h.goal = n,
        Heading::Objects => h.counts.objects = n,
        Heading::Job | Heading::Formulas | Heading::Moves | Heading::Program => {}
    }
    h
}

fn place(sort: RowSort, c: Counts) -> u16
    requires { Limited c }
    ensures { result ≡ place_of sort c }
{
    match sort {
        RowSort::Formula => c.formulas,
        RowSort::Move => MOVES_FROM + c.moves,
        RowSort::Effect => EFFECTS_FROM + c.effects,
        RowSort::Row => PROGRAM_FROM + c.program,
    }
}

fn one_more(sort: RowSort, c: Counts) -> Counts
    requires { Limited c }
    ensures { result ≡ one_more sort c }
{
    let mut d = c;
    match sort {
        RowSort::Formula => d.formulas += 1,
        RowSort::Move => d.moves += 1,
        RowSort::Effect => d.effects += 1,
        RowSort::Row => d.program += 1,
    }
    d
}

fn due_after(sort: RowSort, due: u16) -> u16
    ensures { result ≡ due_after sort due }
{
    match sort {
        RowSort::Effect => due,
        RowSort::Formula | RowSort::Move | RowSort::Row => due.saturating_sub(1),
    }
}

fn effects_after(sort: RowSort, effects: u16, numbers: [u16; WIDTH]) -> u16
    ensures { result ≡ effects_after sort effects numbers }
{
    match sort {
        RowSort::Formula | RowSort::Row => effects,
        RowSort::Move => job::rows::effect_count(numbers),
        RowSort::Effect => effects.saturating_sub(1),
    }
}

impl ReaderState {
    // A line of one number sets a scalar or says how many rows come.
    fn take_one(self, heading: Heading, n: u16) -> ReaderState
        ensures { (l : List ℕ) → reading_of result l ≡ taken_one heading (reading_of self l) n }
    {
        ReaderState {
            next: after_one(heading, n),
            due: n,
            effects: self.effects,
            head: head_after(heading, n, self.head),
        }
    }

    // A row is stored behind the earlier rows of its sort.
    fn take_row(self, sort: RowSort, numbers: [u16; WIDTH], rows: &mut [u16]) -> ReaderState
        requires room { Room (Line.Of sort) self.due self.effects self.head.counts }
        requires rows_len { length rows.old ≡ store_size }
        ensures { reading_of result rows.new ≡ taken_row sort (reading_of self rows.old) numbers }
    {
        let counts = self.head.counts;
        let row = job::rows::stored_row(numbers, counts.effects);
        job::rows::put_row(rows, place(sort, counts), row);
        let due = due_after(sort, self.due);
        let effects = effects_after(sort, self.effects, numbers);
        ReaderState {
            next: after_row(sort, due, effects),
            due,
            effects,
            head: Head {
                counts: one_more(sort, counts),
                ..self.head
            },
        }
    }

    // The numbers of the line that comes next taken in.
    pub fn take_line(self, numbers: [u16; WIDTH], rows: &mut [u16]) -> ReaderState
        requires room { Room self.next self.due self.effects self.head.counts }
        requires rows_len { length rows.old ≡ store_size }
        ensures { reading_of result rows.new ≡ taken (reading_of self rows.old) (list_of self.next numbers) }
    {
        match self.next {
            Line::One(heading) => self.take_one(heading, numbers[0]),
            Line::Of(sort) => self.take_row(sort, numbers, rows),
            Line::End => self,
        }
    }
}
