// Verdicts.
ghost use Rattle.std.specs.Prelude.{◌≡◌};
ghost use Rattle.semantics.specs.Machine.{onward, finished};
ghost use Rattle.validate.specs.Verdict.{verdict_of};

// What a list of moves, or of steps, is: a plan with its cost, blocked at an index, unfinished, or
// one that misses the goal.
#[derive(Clone, Copy, PartialEq, Eq)]
pub enum Verdict {
    Plan(u64),
    Blocked(usize),
    Unfinished,
    Missed,
}

impl Verdict {
    // The verdict once all entries are made, at a cost.
    #[tactic(auto, unfolding(semantics::specs::Machine::onward, semantics::specs::Machine::finished))]
    pub fn finish(complete: bool, goal: bool, cost: u64) -> Verdict
        ensures { verdict_of result ≡ onward cost (finished complete goal) }
    {
        match (complete, goal) {
            (true, true) => Verdict::Plan(cost),
            (true, false) => Verdict::Missed,
            (false, _) => Verdict::Unfinished,
        }
    }
}
