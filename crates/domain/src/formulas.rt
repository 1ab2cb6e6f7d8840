// The formulas' values in a state, all at once.
ghost use Rattle.std.specs.Prelude.{◌≡◌, false, get_or};
ghost use Rattle.domain.specs.Domain.{domain_at, Tells};

use crate::meaning::Meaning;
use job::task::Task;

// How many values there may be, one a formula.
pub const VALUES: usize = limits::FORMULAS as usize;

// The value at an index; false where there is none.
pub fn value_at(values: &[bool], a: u16) -> bool
    ensures { result ≡ get_or values.now a false }
{
    values.get(a as usize).copied().unwrap_or(false)
}

// The values of all formulas of a task in a state.
#[tactic(auto, using(job::proofs::StoredLaws::limited))]
pub fn formula_values(task: &Task, state: u16) -> [bool; VALUES]
    ensures { Tells (domain_at task.now) state result }
{
    let mut values = [false; VALUES];
    for k in 0..task.head.counts.formulas {
        let formula = job::stored::formula_at(task.head, task.rows, k);
        values[k as usize] = Meaning::from(formula).value(state, &values);
    }
    values
}
