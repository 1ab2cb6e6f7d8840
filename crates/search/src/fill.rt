// The cost table filled.
ghost use Rattle.std.specs.Prelude.{◌≡◌, ◌*◌, ◌≤◌, length, replicate};
ghost use Rattle.job.specs.StoredTask.{stored_job};
ghost use Rattle.semantics.specs.CostTable.{Filled};
ghost use Rattle.compile.specs.CompiledJob.{steps_of};
ghost use Rattle.domain.specs.Domain.{domain_at};
ghost use Rattle.queue.specs.Queue.{no_key};
ghost use Rattle.search.specs.Table.{graph_in, Keeps, Followed};
ghost use Rattle.search.specs.Filling.{Cleared, Exhausted};

use crate::UNREACHED;
use crate::sweep::sweep_state;
use crate::table::Table;
use compiled::CompiledJob;
use limits::STATES;
use queue::NO_KEY;
use queue::queue::Queue;

// Makes the first n cells unreached.
fn clear(costs: &mut [u64], n: usize)
    requires { n ≤ length costs.old }
    ensures { Cleared n costs.old costs.new }
{
    costs[..n].fill(UNREACHED);
}

// Sweeps states until none has a key.
fn settle(table: &mut Table)
    requires { Followed table.old }
    ensures exhausted { Exhausted (graph_in table.old) table.old.costs.now table.new.costs.now }
    ensures keeps { Keeps table.old table.new }
{
    while let Some(state) = table.queue.choose() {
        sweep_state(table, state);
    }
}

// Fills the table's front by a queue of its states, none of which has a key.
fn fill_by(costs: &mut [u64], queue: &mut Queue, job: &CompiledJob)
    requires keys { queue.old ≡ replicate (domain_at job.now.task).states no_key }
    requires room { (domain_at job.now.task).states * job.now.positions ≤ length costs.old }
    ensures { Filled (domain_at job.now.task) (steps_of (stored_job job.now.task)) job.now.positions
        costs.old costs.new }
{
    clear(costs, job.states as usize * job.positions as usize);
    let mut table = Table::of(costs, queue, *job);
    table.start();
    settle(&mut table);
}

// Fills the table's front with the least cost of each state and position.
pub fn fill(costs: &mut [u64], job: &CompiledJob)
    requires { (domain_at job.now.task).states * job.now.positions ≤ length costs.old }
    ensures { Filled (domain_at job.now.task) (steps_of (stored_job job.now.task)) job.now.positions
        costs.old costs.new }
{
    let mut keys = [NO_KEY; STATES];
    let mut nodes = [0u16; STATES];
    let mut queue = Queue::of(&mut keys, &mut nodes, job.states as usize);
    fill_by(costs, &mut queue, job);
}
