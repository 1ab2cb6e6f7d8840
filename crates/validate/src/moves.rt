// The verdict on a list of moves.
ghost use Rattle.std.specs.Prelude.{◌≡◌};
ghost use Rattle.limits.specs.Limits.{most_positions};
ghost use Rattle.semantics.specs.PositionSets.{verdict_by};
ghost use Rattle.job.specs.StoredTask.{stored_job};
ghost use Rattle.domain.specs.Domain.{domain_at};
ghost use Rattle.domain.specs.Entries.{EntriesBelow};
ghost use Rattle.compile.specs.Program.{program_of};
ghost use Rattle.validate.specs.Verdict.{verdict_of};

use crate::position_set::PositionSet;
use crate::verdict::Verdict;
use compiled::CompiledJob;
use compiled::index::StepIndex;
use domain::world::World;

// The verdict on moves against the job's program.
pub fn check_moves(job: &CompiledJob, plan: &[u16]) -> Verdict
    requires { EntriesBelow plan.now (domain_at job.now.task).moves }
    ensures { verdict_of result
        ≡ verdict_by most_positions (domain_at job.now.task) (program_of (stored_job job.now.task)) plan.now }
{
    let index = StepIndex::of(job.list);
    let mut world = World::at(&job.task, domain::states::start(&job.task));
    let mut set = PositionSet::start().closed(&index, &world.values);
    let mut cost: u64 = 0;
    for (i, m) in plan.iter().enumerate() {
        let Some(next) = world.successor(*m) else {
            return Verdict::Blocked(i);
        };
        cost += world.cost(*m);
        world = World::at(&job.task, next);
        set = set.advanced(&index, *m).closed(&index, &world.values);
        if set.count == 0 {
            return Verdict::Blocked(i);
        }
    }
    Verdict::finish(set.has(job.positions - 1), world.goal_holds(), cost)
}
