// The steps of a list by the positions that they start from.
ghost use Rattle.std.proofs.Props.{props};
ghost use Rattle.std.specs.Prelude.{◌≡◌, ◌/◌, ◌<◌, length};
ghost use Rattle.limits.specs.Limits.{most_positions};
ghost use Rattle.compiled.specs.StepList.{Listed};
ghost use Rattle.compiled.specs.StepIndex.{last_step_from, step_before, link_of, StepsIndexed, StepsRead};
ghost use Rattle.compiled.specs.Props.{read_props};

use crate::steps::OutStep;
use limits::{POSITIONS, STEPS};

// A step as it was read, with a link to the one before it from the same position. It takes eight
// bytes.
#[derive(Clone, Copy)]
struct LinkedStep {
    step: OutStep,
    before: u16,
}

impl LinkedStep {
    // What stands in place of a step that is not read.
    const UNREAD: LinkedStep = LinkedStep {
        step: OutStep::UNREAD,
        before: 0,
    };
}

// The steps as they are read from the list, so that each is read once. For each position the last
// step from it, and for each step the one before it from the same position; counted from 1, and 0
// for none, so that a link has two bytes. Nothing is allocated.
#[derive(Drop)]
pub struct StepIndex<'a> {
    pub list: &'a [u16],
    steps: [LinkedStep; STEPS],
    last: [u16; POSITIONS],
    ghost read: { StepsRead list.now (length list.now / 4) steps } by { Prim.hlevel read_props },
    pub ghost indexed: { StepsIndexed list.now last steps } by { Prim.hlevel props },
}

// The step that a link leads to.
fn linked(link: u16) -> Option<usize>
    ensures { link_of result ≡ link }
{
    (link as usize).checked_sub(1)
}

impl<'a> StepIndex<'a> {
    ghost use Rattle.compiled.specs.Steps.{IsStep};

    pub fn of(list: &'a [u16]) -> StepIndex<'a>
        requires { Listed list.now }
        ensures { result.list.now ≡ list.now }
    {
        let mut steps = [LinkedStep::UNREAD; STEPS];
        let mut last = [0u16; POSITIONS];
        for k in 0..list.len() / 4 {
            let step = crate::steps::step_at(list, k);
            let from = crate::steps::start_at(list, k) as usize;
            let before = last[from];
            steps[k] = LinkedStep { step, before };
            last[from] = (k + 1) as u16;
        }
        StepIndex { list, steps, last }
    }

    // The last step from position p.
    pub fn last_from(&self, p: usize) -> Option<usize>
        requires { p < most_positions }
        ensures { result ≡ last_step_from self.now.list.now p (length self.now.list.now / 4) }
    {
        linked(self.last[p])
    }

    // The step before step k from the same position.
    pub fn before(&self, k: usize) -> Option<usize>
        requires { k < length self.now.list.now / 4 }
        ensures { result ≡ step_before self.now.list.now k }
    {
        linked(self.steps[k].before)
    }

    // Step k.
    pub fn step(&self, k: usize) -> OutStep
        requires { k < length self.now.list.now / 4 }
        ensures { IsStep self.now.list.now k result }
    {
        self.steps[k].step
    }
}
