// A state of a stored task, with the formulas' values in it.
ghost use Rattle.std.specs.Prelude.{◌≡◌, ◌≤◌, ◌<◌, IfSome};
ghost use Rattle.limits.specs.Limits.{most_cost};
ghost use Rattle.domain.specs.Domain.{domain_at, Tells};

use crate::effects::{Changes, changes_of};
use crate::formulas::{VALUES, formula_values, value_at};
use job::costs::class_cost;
use job::stored::move_at;
use job::task::Task;

#[derive(Clone, Copy)]
pub struct World<'t> {
    pub task: Task<'t>,
    pub state: u16,
    pub values: [bool; VALUES],
    pub ghost told: { Tells (domain_at task) state values },
}

impl<'t> World<'t> {
    pub fn at(task: &Task<'t>, state: u16) -> World<'t>
        ensures { (result.task ≡ task.now) × (result.state ≡ state) }
    {
        World {
            task: *task,
            state,
            values: formula_values(task, state),
        }
    }

    // Where the task starts.
    pub fn start(task: &Task<'t>) -> World<'t>
        ensures { (result.task ≡ task.now) × (result.state ≡ (domain_at task.now).start) }
    {
        World::at(task, crate::states::start(task))
    }

    // Whether a formula holds; one that the task lacks does not.
    pub fn holds(&self, formula: u16) -> bool
        ensures { result ≡ (domain_at self.now.task).holds formula self.now.state }
    {
        value_at(&self.values, formula)
    }

    pub fn goal_holds(&self) -> bool
        ensures { result ≡ (domain_at self.now.task).goal self.now.state }
    {
        self.holds(self.task.head.goal)
    }

    // The state after move m: none where its precondition fails, or where its effects that hold both
    // clear and set one fact.
    #[tactic(auto, using(crate::proofs::SuccessorLaws::as_made))]
    pub fn successor(&self, m: u16) -> Option<u16>
        requires { (m < (domain_at self.now.task).moves) × (self.now.state < (domain_at self.now.task).states) }
        ensures after { result ≡ (domain_at self.now.task).successor m self.now.state }
        ensures within { IfSome result (λ t. t < (domain_at self.now.task).states) }
    {
        let made = move_at(self.task.head, self.task.rows, m);
        if !self.holds(made.pre) {
            return None;
        }
        let Changes { cleared, set } = changes_of(&self.task, &self.values, made);
        if cleared & set != 0 {
            return None;
        }
        Some(self.state & !cleared | set)
    }

    // What move m costs: its class, and where its formula holds the second one too.
    #[tactic(auto, using(crate::proofs::CostLaws::as_counted))]
    pub fn cost(&self, m: u16) -> u64
        requires { m < (domain_at self.now.task).moves }
        ensures { (result ≡ (domain_at self.now.task).cost m self.now.state) × (result ≤ most_cost) }
    {
        let made = move_at(self.task.head, self.task.rows, m);
        let own = u64::from(class_cost(self.task.rows, made.class));
        let second = u64::from(class_cost(self.task.rows, made.second));
        // most moves have no second cost, and the formula is then not looked at
        if second != 0 && self.holds(made.when) {
            return own + second;
        }
        own
    }
}
