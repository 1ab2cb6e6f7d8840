// A world, and what its moves give as far as they are worked out.
ghost use Rattle.std.proofs.Props.{props};
ghost use Rattle.std.specs.Prelude.{◌≡◌, ◌<◌, Some};
ghost use Rattle.std.specs.Bool.{then_some};
ghost use Rattle.domain.specs.Domain.{domain_at};
ghost use Rattle.semantics.specs.StepVerdict.{arrives};
ghost use Rattle.compiled.specs.Steps.{label_of, silent_by};
ghost use Rattle.compiled.specs.Arrival.{arrival_of};
ghost use Rattle.compiled.specs.Explored.{Gives, known_by, KeepsMade};

use crate::steps::OutStep;
use compile::label::Label;
use domain::world::World;
use job::task::Task;

// How many moves a task may have.
const MOVES: usize = limits::MOVES as usize;

// Where a step leads: the state, the position, and what it costs.
#[derive(Clone, Copy)]
pub struct Arrival {
    pub state: u16,
    pub position: u16,
    pub cost: u64,
}

// What making a move gives: the state after it, and its cost. A cost is kept in four bytes.
#[derive(Clone, Copy)]
pub struct Made {
    pub state: u16,
    pub cost: u32,
}

// What is known of what a move gives: that it can't be made, the state after it and its cost, or
// nothing yet. It takes eight bytes. The first variant is told by the first test, and most moves that
// a sweep meets in the bench's `improving` can't be made.
#[derive(Clone, Copy)]
enum Kept {
    Stuck,
    Leads(u16, u32),
    Unknown,
}

impl Kept {
    // What is known once it is worked out.
    fn of(made: Option<Made>) -> Kept
        ensures { known_by result ≡ Some made }
    {
        match made {
            None => Kept::Stuck,
            Some(made) => Kept::Leads(made.state, made.cost),
        }
    }
}

// What move m gives in a world, worked out.
fn make(world: &World, m: u16) -> Option<Made>
    requires { (m < (domain_at world.now.task).moves) × (world.now.state < (domain_at world.now.task).states) }
    ensures { Gives (domain_at world.now.task) world.now.state m result }
{
    let state = world.successor(m)?;
    Some(Made {
        state,
        cost: world.cost(m) as u32,
    })
}

// Where a step leads in a world, if it can be made. What its move gives is worked out.
pub fn arrive(world: &World, step: OutStep) -> Option<Arrival>
    requires { world.now.state < (domain_at world.now.task).states }
    ensures { arrival_of result ≡ arrives (domain_at world.now.task) (label_of step) world.now.state step.to }
{
    let Label::Make(m) = step.label else {
        return step.stays(world);
    };
    if domain::moves::move_count(&world.task) <= m {
        return None;
    }
    let made = make(world, m)?;
    Some(step.after(made))
}

// A world, and for each move what is known of what it gives there.
#[derive(Drop)]
pub struct Explored<'t> {
    pub world: World<'t>,
    kept: [Kept; MOVES],
    pub ghost inside: { world.state < (domain_at world.task).states },
    ghost keeps: { KeepsMade (domain_at world.task) world.state kept } by { Prim.hlevel props },
}

impl OutStep {
    // Where it leads without a move.
    fn stays(self, world: &World) -> Option<Arrival>
        ensures { result ≡ then_some (silent_by world.now.values (label_of self)) (record { state = world.now.state; position = self.to; cost = 0 }) }
    {
        let here = Arrival {
            state: world.state,
            position: self.to,
            cost: 0,
        };
        self.is_silent(&world.values).then_some(here)
    }

    // Where it leads by what its move gives.
    fn after(self, made: Made) -> Arrival
        ensures { result ≡ record { state = made.state; position = self.to; cost = made.cost } }
    {
        Arrival {
            state: made.state,
            position: self.to,
            cost: u64::from(made.cost),
        }
    }
}

impl<'t> Explored<'t> {
    pub fn at(task: &Task<'t>, state: u16) -> Explored<'t>
        requires { state < (domain_at task.now).states }
        ensures { (result.world.task ≡ task.now) × (result.world.state ≡ state) }
    {
        Explored {
            world: World::at(task, state),
            kept: [Kept::Unknown; MOVES],
        }
    }

    // What move m gives, as it is kept, or worked out and then kept.
    pub fn made(&mut self, m: u16) -> Option<Made>
        requires { m < (domain_at self.old.world.task).moves }
        ensures gives { Gives (domain_at self.old.world.task) self.old.world.state m result }
        ensures world { self.new.world ≡ self.old.world }
    {
        let i = m as usize;
        match self.kept[i] {
            Kept::Stuck => None,
            Kept::Leads(state, cost) => Some(Made { state, cost }),
            Kept::Unknown => {
                let made = make(&self.world, m);
                self.kept[i] = Kept::of(made);
                made
            }
        }
    }

    // Where a step leads, if it can be made.
    pub fn arrive(&mut self, step: OutStep) -> Option<Arrival>
        ensures leads { arrival_of result ≡ arrives (domain_at self.old.world.task) (label_of step) self.old.world.state step.to }
        ensures world { self.new.world ≡ self.old.world }
    {
        let Label::Make(m) = step.label else {
            return step.stays(&self.world);
        };
        if domain::moves::move_count(&self.world.task) <= m {
            return None;
        }
        let made = self.made(m)?;
        Some(step.after(made))
    }
}
