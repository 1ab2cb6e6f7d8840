// The least cost, from the cost table.
ghost use Rattle.std.specs.Prelude.{◌*◌, ◌≤◌, length};
ghost use Rattle.job.specs.StoredTask.{stored_job};
ghost use Rattle.semantics.specs.CostTable.{Filled, LeastOr};
ghost use Rattle.domain.specs.Domain.{domain_at};
ghost use Rattle.compile.specs.Program.{program_of};
ghost use Rattle.compile.specs.CompiledJob.{steps_of, final_position_of};
ghost use Rattle.search.specs.Filling.{Lowest};

use crate::UNREACHED;
use compiled::CompiledJob;
use domain::world::World;

// The least entry at the last position, of the states where the goal holds.
fn least_entry(costs: &[u64], job: &CompiledJob) -> u64
    requires { (domain_at job.now.task).states * job.now.positions ≤ length costs.now }
    ensures { Lowest (domain_at job.now.task) job.now.positions costs.now (final_position_of (stored_job job.now.task))
        (domain_at job.now.task).states result }
{
    let positions = job.positions as usize;
    let mut least = UNREACHED;
    for state in 0..job.states {
        let x = costs[state as usize * positions + (positions - 1)];
        if x < least && World::at(&job.task, state).goal_holds() {
            least = x;
        }
    }
    least
}

// Fills the table, and answers the least cost of all plans, or none where there is no plan.
pub fn least_cost(costs: &mut [u64], job: &CompiledJob) -> Option<u64>
    requires { (domain_at job.now.task).states * job.now.positions ≤ length costs.old }
    ensures filled { Filled (domain_at job.now.task) (steps_of (stored_job job.now.task)) job.now.positions
        costs.old costs.new }
    ensures least { LeastOr (domain_at job.now.task) (program_of (stored_job job.now.task)) result }
{
    crate::fill::fill(costs, job);
    let least = least_entry(costs, job);
    (least < UNREACHED).then_some(least)
}
