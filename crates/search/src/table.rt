// The cost table of a compiled job while it is filled.
ghost use Rattle.std.specs.Prelude.{◌≡◌, ◌*◌, ◌/◌, ◌≤◌, ◌<◌, length, set};
ghost use Rattle.limits.specs.Limits.{most_positions};
ghost use Rattle.domain.specs.Domain.{domain_at};
ghost use Rattle.compiled.specs.Steps.{IsStep};
ghost use Rattle.compiled.specs.StepIndex.{last_step_from, step_before};
ghost use Rattle.queue.specs.Queue.{Lowered};
ghost use Rattle.semantics.specs.Cells.{cell as cell_of};

use compiled::CompiledJob;
use compiled::index::StepIndex;
use compiled::steps::OutStep;
use queue::queue::Queue;

// A cell for each state and position, the keys of the states, and the steps between the cells.
#[derive(Drop)]
pub(crate) struct Table<'j, 'c, 'q, 'k> {
    pub job: CompiledJob<'j>,
    pub index: StepIndex<'j>,
    pub costs: &'c mut [u64],
    pub queue: &'q mut Queue<'k>,
    pub ghost indexed: { index.list.now ≡ job.list.now },
    pub ghost cells: { (domain_at job.task).states * job.positions ≤ length costs.now },
    pub ghost keys: { length queue.now ≡ (domain_at job.task).states },
}

impl<'j, 'c, 'q, 'k> Table<'j, 'c, 'q, 'k> {
    ghost use Rattle.search.specs.Table.{Keeps};

    pub fn of(
        costs: &'c mut [u64],
        queue: &'q mut Queue<'k>,
        job: CompiledJob<'j>,
    ) -> Table<'j, 'c, 'q, 'k>
        requires keys { length queue.old ≡ (domain_at job.task).states }
        requires cells { (domain_at job.task).states * job.positions ≤ length costs.old }
        ensures job { result.job ≡ job.entry }
        ensures costs { result.costs.now ≡ costs.old }
        ensures same_reference { result.costs.ghost_name ≡ costs.entry.ghost_name }
        ensures queue { result.queue.now ≡ queue.old }
    {
        Table {
            job,
            index: StepIndex::of(job.list),
            costs,
            queue,
        }
    }

    // Reaches the first position in the start at no cost.
    pub fn start(&mut self)
        ensures costs { self.new.costs.now ≡ set self.old.costs.now (cell_of self.old.job.positions (domain_at self.old.job.task).start 0) 0 }
        ensures queue { Lowered (domain_at self.old.job.task).start 0 self.old.queue.now self.new.queue.now }
        ensures keeps { Keeps self.old self.new }
    {
        let task = self.job.task;
        let start = domain::states::start(&task);
        let first = self.cell(start, 0);
        self.costs[first] = 0;
        self.queue.lower(start as usize, 0);
    }

    // The number of the cell at position p of a state.
    pub fn cell(&self, state: u16, p: usize) -> usize
        requires { (state < (domain_at self.now.job.task).states) × (p < self.now.job.positions) }
        ensures { (result ≡ cell_of self.now.job.positions state p) × (result < length self.now.costs.now) }
    {
        (state as usize) * (self.job.positions as usize) + p
    }

    // The last step from position p.
    pub fn last_from(&self, p: usize) -> Option<usize>
        requires { p < most_positions }
        ensures { result ≡ last_step_from self.now.job.list.now p (length self.now.job.list.now / 4) }
    {
        self.index.last_from(p)
    }

    // The step before step k from the same position.
    pub fn before(&self, k: usize) -> Option<usize>
        requires { k < length self.now.job.list.now / 4 }
        ensures { result ≡ step_before self.now.job.list.now k }
    {
        self.index.before(k)
    }

    // Step k.
    pub fn step(&self, k: usize) -> OutStep
        requires { k < length self.now.job.list.now / 4 }
        ensures { IsStep self.now.job.list.now k result }
    {
        self.index.step(k)
    }
}
