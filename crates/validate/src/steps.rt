// The verdict on a list of steps.
ghost use Rattle.std.specs.Prelude.{◌≡◌, ◌/◌, ◌<◌, length};
ghost use Rattle.job.specs.StoredTask.{stored_job};
ghost use Rattle.semantics.specs.StepVerdict.{made, step_verdict};
ghost use Rattle.domain.specs.Domain.{domain_at};
ghost use Rattle.domain.specs.Entries.{EntriesBelow};
ghost use Rattle.compile.specs.CompiledJob.{steps_of, final_position_of, step_count};
ghost use Rattle.compiled.specs.StepList.{steps_on};
ghost use Rattle.compiled.specs.Arrival.{arrival_of};
ghost use Rattle.validate.specs.Verdict.{verdict_of};

use crate::verdict::Verdict;
use compiled::CompiledJob;
use compiled::explored::Arrival;
use domain::world::World;

// Step i of the list, made at a position in a state.
fn make_step(job: &CompiledJob, i: u16, state: u16, position: u16) -> Option<Arrival>
    requires i_in_bounds { i < length job.now.list.now / 4 }
    requires state_in_bounds { state < (domain_at job.now.task).states }
    ensures { arrival_of result ≡ made (domain_at job.now.task) (steps_on job.now.list.now) i state position }
{
    let k = i as usize;
    if compiled::steps::start_at(job.list, k) != position {
        return None;
    }
    let world = World::at(&job.task, state);
    compiled::explored::arrive(&world, compiled::steps::step_at(job.list, k))
}

// The verdict on steps against the compiled job. Each entry is that one step.
pub fn check_steps(job: &CompiledJob, plan: &[u16]) -> Verdict
    requires { EntriesBelow plan.now (step_count (stored_job job.now.task)) }
    ensures { verdict_of result ≡ step_verdict (domain_at job.now.task) (steps_of (stored_job job.now.task))
        (final_position_of (stored_job job.now.task)) plan.now }
{
    let mut state = domain::states::start(&job.task);
    let mut position: u16 = 0;
    let mut cost: u64 = 0;
    for (i, step) in plan.iter().enumerate() {
        let Some(arrival) = make_step(job, *step, state, position) else {
            return Verdict::Blocked(i);
        };
        state = arrival.state;
        position = arrival.position;
        cost += arrival.cost;
    }
    let world = World::at(&job.task, state);
    Verdict::finish(position == job.positions - 1, world.goal_holds(), cost)
}
