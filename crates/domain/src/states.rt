// States: how many there are, and where a task starts.
ghost use Rattle.std.specs.Prelude.{◌≡◌, ◌<◌};
ghost use Rattle.domain.specs.Domain.{domain_at};

use job::task::Task;

pub fn state_count(task: &Task) -> u16
    ensures { result ≡ (domain_at task.now).states }
{
    job::states::state_count(task.head.counts.facts)
}

pub fn start(task: &Task) -> u16
    ensures start { result ≡ (domain_at task.now).start }
    ensures inside { result < (domain_at task.now).states }
{
    task.head.init
}
