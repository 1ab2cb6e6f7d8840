// What loading answers.
ghost use Rattle.std.specs.Prelude.{◌≡◌};
ghost use Rattle.std.proofs.Props.{props};
ghost use Rattle.job.specs.StoredTask.{stored_job, stored_task};
ghost use Rattle.domain.specs.Domain.{domain_at};
ghost use Rattle.load.specs.Sized.{Sized};
ghost use Rattle.load.specs.Refusals.{list_need, table_size};

use compile::sizes::Sizes;
use job::task::Task;

// A job that nothing refuses so far, the sizes of its compiled job, and how many states it has.
#[derive(Clone, Copy)]
pub struct LoadedJob<'a> {
    pub task: Task<'a>,
    pub sizes: Sizes,
    pub states: u16,
    pub ghost sized: { Sized (stored_job task) sizes } by { Prim.hlevel props },
    pub ghost counted: { states ≡ (domain_at task).states },
}

impl LoadedJob<'_> {
    // The places of the compiled list: four for each step.
    pub fn list_need(&self) -> usize
        ensures { result ≡ list_need (stored_job self.now.task) }
    {
        usize::from(self.sizes.steps) * 4
    }

    // The cells of the cost table: one for each state and position.
    pub fn table_need(&self) -> usize
        ensures { result ≡ table_size (stored_task self.now.task) }
    {
        usize::from(self.states) * usize::from(self.sizes.positions)
    }
}

// A loaded job, and the entries of a plan that is offered for it. Rows and entries are lent each for
// a time of their own, so the job may outlive the entries.
#[derive(Clone, Copy)]
pub struct LoadedOffer<'a, 'e> {
    pub job: LoadedJob<'a>,
    pub entries: &'e [u16],
}
