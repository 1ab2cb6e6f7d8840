// Moves: how many there are.
ghost use Rattle.std.specs.Prelude.{◌≡◌};
ghost use Rattle.domain.specs.Domain.{domain_at};

use job::task::Task;

#[tactic(auto, using(job::proofs::StoredLaws::move_count))]
pub fn move_count(task: &Task) -> u16
    ensures { result ≡ (domain_at task.now).moves }
{
    task.head.counts.moves
}
