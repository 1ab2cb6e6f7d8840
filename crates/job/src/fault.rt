// Which reason refuses a line: form before 2 before 3.
ghost use Rattle.std.specs.Prelude.{◌≡◌, ◌≤◌, cond, Some, IfOk};
ghost use Rattle.limits.specs.Limits.{most_facts};
ghost use Rattle.job.specs.Fault.{range_of, is_in, criteria, first_reason, reason_of, fault};
ghost use Rattle.job.specs.Refusal.{number_of, number_told};
ghost use Rattle.job.specs.Store.{numbers_of};

use crate::head::Counts;
use crate::line::{Heading, Line, RowSort};
use crate::refusal::Reason;
use crate::rows::{EFFECT_COUNT, WIDTH};
use limits::{FACTS, FORMULAS, MOVE_EFFECTS, MOVES, OBJECTS, PROGRAM};

// The numbers that a line of one number may have, and the reason that refuses it else.
#[derive(Clone, Copy)]
pub struct Range {
    pub from: u16,
    pub below: u16,
    pub reason: Reason,
}

impl Range {
    fn new(from: u16, below: u16, reason: Reason) -> Range
        ensures { result ≡ record { from = from; below = below; reason = reason } }
    {
        Range {
            from,
            below,
            reason,
        }
    }

    fn has(self, n: u16) -> bool
        ensures { result ≡ is_in self n }
    {
        self.from <= n && n < self.below
    }
}

fn range_of(heading: Heading, counts: Counts) -> Range
    requires { counts.facts ≤ most_facts }
    ensures { result ≡ range_of heading counts }
{
    match heading {
        Heading::Job => Range::new(1, 2, Reason::Form),
        Heading::Facts => Range::new(0, FACTS + 1, Reason::Range),
        Heading::Init => Range::new(0, crate::states::state_count(counts.facts), Reason::Range),
        Heading::Formulas => Range::new(1, FORMULAS + 1, Reason::Range),
        Heading::Moves => Range::new(0, MOVES + 1, Reason::Range),
        Heading::Goal => Range::new(0, counts.formulas, Reason::Reference),
        Heading::Objects => Range::new(0, OBJECTS + 1, Reason::Range),
        Heading::Program => Range::new(1, PROGRAM + 1, Reason::Range),
    }
}

// Where something isn't right, the reason refuses it.
fn ensure(right: bool, reason: Reason) -> Result<(), Reason>
    ensures { number_told result ≡ cond right 0 (number_of reason) }
{
    if right { Ok(()) } else { Err(reason) }
}

// A row's count of effects, and then its fields.
fn check_row(sort: RowSort, numbers: &[u16; WIDTH], counts: Counts) -> Result<(), Reason>
    ensures { number_told result ≡ first_reason (criteria sort counts numbers.now) }
{
    let right = match sort {
        RowSort::Formula => crate::fields::formula_right(numbers, counts),
        RowSort::Move => {
            ensure(numbers[EFFECT_COUNT] <= MOVE_EFFECTS, Reason::Range)?;
            crate::fields::move_right(numbers, counts)
        }
        RowSort::Effect => crate::fields::effect_right(numbers, counts),
        RowSort::Row => crate::fields::row_right(numbers, counts),
    };
    ensure(right, Reason::Reference)
}

// The numbers of a line that has the form of the one that comes next.
fn check_numbers(next: Line, numbers: &[u16; WIDTH], counts: Counts) -> Result<(), Reason>
    requires { counts.facts ≤ most_facts }
    ensures { number_told result ≡ reason_of next counts numbers.now }
{
    match next {
        Line::One(heading) => {
            let range = range_of(heading, counts);
            ensure(range.has(numbers[0]), range.reason)
        }
        Line::Of(sort) => check_row(sort, numbers, counts),
        Line::End => Err(Reason::Form),
    }
}

// The numbers of a line that no reason refuses, read as the one that comes next; there are none to
// look at where it lacks that form.
pub fn check_line(
    next: Line,
    line: Option<[u16; WIDTH]>,
    counts: Counts,
) -> Result<[u16; WIDTH], Reason>
    requires { counts.facts ≤ most_facts }
    ensures reason { number_told result ≡ fault next counts (numbers_of next line) }
    ensures numbers { IfOk result (λ numbers. line ≡ Some numbers) }
{
    let Some(numbers) = line else {
        return Err(Reason::Form);
    };
    check_numbers(next, &numbers, counts)?;
    Ok(numbers)
}
