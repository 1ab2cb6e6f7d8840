// Effects of moves, as sets of facts.
ghost use Rattle.std.specs.Prelude.{◌+◌, ◌≤◌};
ghost use Rattle.job.specs.Store.{move_in};
ghost use Rattle.job.specs.StoredTask.{stored_job};
ghost use Rattle.domain.specs.Effects.{ChangesAre};
ghost use Rattle.domain.specs.Domain.{effects_of};

use crate::facts::fact_where;
use crate::formulas::value_at;
use job::stored::Move;
use job::task::Task;

// The facts that effects clear, and those that they set, each a set of bits as a state is.
#[derive(Clone, Copy)]
pub struct Changes {
    pub cleared: u16,
    pub set: u16,
}

// The facts that those of a move's effects clear and set that hold by the formulas' values.
#[tactic(auto, using(job::proofs::StoredLaws::limited))]
pub fn changes_of(task: &Task, values: &[bool], made: Move) -> Changes
    requires { made.first + made.effects ≤ task.now.head.counts.effects }
    ensures { ChangesAre task.now.head.counts.facts values.now
        (effects_of (stored_job task.now) (move_in made)) result.cleared result.set }
{
    let mut cleared: u16 = 0;
    let mut set: u16 = 0;
    for k in 0..made.effects {
        let effect = job::stored::effect_at(task.head, task.rows, made.first + k);
        let on = value_at(values, effect.cond);
        cleared |= fact_where(on & (effect.value == 0), effect.fact);
        set |= fact_where(on & (effect.value == 1), effect.fact);
    }
    Changes { cleared, set }
}
