// One state swept.
ghost use Rattle.std.specs.Prelude.{◌≡◌, ◌≤◌, ◌<◌, ◌↔◌, IsTrue, false, get_or};
ghost use Rattle.limits.specs.Limits.{most_positions};
ghost use Rattle.semantics.specs.CostTable.{unreached};
ghost use Rattle.search.specs.Table.{graph_in, Keeps, Followed, Improved};
ghost use Rattle.search.specs.Sweep.{SameState, Relaxes, Steps, Scans, FollowedTo};

use crate::UNREACHED;
use crate::table::Table;
use compiled::explored::{Arrival, Explored};
use compiled::steps::OutStep;
use limits::POSITIONS;

// A state that is swept, the key that it had, and the positions whose steps are followed. Such a mark
// is taken back when the position's cell falls.
#[derive(Drop)]
pub(crate) struct Sweep<'a> {
    pub explored: Explored<'a>,
    pub key: u64,
    pub marks: [bool; POSITIONS],
}

impl<'a> Sweep<'a> {
    // Lowers the target's cell to x and the step's cost, where that is less. In the state that is swept
    // the steps from the target's position are then to follow, and the answer is the lesser of `next`
    // and that position; another state's key comes down, and the answer is `next`.
    fn relax(&mut self, table: &mut Table, x: u64, target: Arrival, next: usize) -> usize
        requires state_inside { target.state < (graph_in table.old).domain.states }
        requires position_inside { target.position < table.old.job.positions }
        ensures relaxes { Relaxes table.old self.old x target next table.new self.new result }
        ensures same_state { SameState self.old self.new }
        ensures keeps { Keeps table.old table.new }
    {
        let t = target.state;
        let p = target.position as usize;
        let i = table.cell(t, p);
        let sum = x.saturating_add(target.cost);
        if table.costs[i] <= sum {
            return next;
        }
        table.costs[i] = sum;
        if t != self.explored.world.state {
            table.queue.lower(t as usize, sum);
            return next;
        }
        self.marks[p] = false;
        next.min(p)
    }

    // Follows a step, if it can be made, from a cell of the state that costs x.
    fn follow(&mut self, table: &mut Table, x: u64, step: OutStep, next: usize) -> usize
        requires same_task { self.old.explored.world.task ≡ table.old.job.task }
        requires inside { step.to < table.old.job.positions }
        ensures steps { Steps table.old self.old x step next table.new self.new result }
        ensures same_state { SameState self.old self.new }
        ensures keeps { Keeps table.old table.new }
    {
        let Some(target) = self.explored.arrive(step) else {
            return next;
        };
        self.relax(table, x, target, next)
    }

    // Whether steps are to follow from position p, whose cell costs x.
    fn is_due(&self, p: usize, x: u64) -> bool
        requires { p < most_positions }
        ensures { IsTrue result
            ↔ ((get_or self.now.marks p false ≡ false) × (self.now.key ≤ x) × (x < unreached)) }
    {
        !self.marks[p] && self.key <= x && x < UNREACHED
    }

    // Follows the steps from position p, unless nothing is to follow there. Answers the position to
    // go on from.
    fn scan(&mut self, table: &mut Table, p: usize) -> usize
        requires same_task { self.old.explored.world.task ≡ table.old.job.task }
        requires inside { p < table.old.job.positions }
        requires followed { FollowedTo table.old self.old p }
        ensures scans { Scans table.old self.old p table.new self.new result }
        ensures same_state { SameState self.old self.new }
        ensures keeps { Keeps table.old table.new }
    {
        let i = table.cell(self.explored.world.state, p);
        let x = table.costs[i];
        let mut next = p + 1;
        if !self.is_due(p, x) {
            return next;
        }
        self.marks[p] = true;
        let mut left = table.last_from(p);
        while let Some(k) = left {
            let step = table.step(k);
            next = self.follow(table, x, step, next);
            left = table.before(k);
        }
        next
    }
}

// Follows the steps from all cells of a state that cost at least as much as its key says, again from
// those that fall meanwhile. Its key is taken back.
pub(crate) fn sweep_state(table: &mut Table, state: usize)
    requires inside { state < (graph_in table.old).domain.states }
    requires due { get_or table.old.queue.now state 0 < unreached }
    requires followed { Followed table.old }
    ensures improved { Improved table.old table.new }
    ensures keeps { Keeps table.old table.new }
{
    let positions = table.job.positions as usize;
    let task = table.job.task;
    let mut sweep = Sweep {
        explored: Explored::at(&task, state as u16),
        key: table.queue.take(state),
        marks: [false; POSITIONS],
    };
    let mut p = 0;
    // A while: the scan goes back to a position whose cell fell.
    while p < positions {
        p = sweep.scan(table, p);
    }
}
