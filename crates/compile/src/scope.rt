// Variables and their picks.
ghost use Rattle.std.specs.Prelude.{◌≡◌};
ghost use Rattle.job.specs.StoredTask.{stored_job};
ghost use Rattle.compile.specs.CompiledJob.{program_scoped};
ghost use Rattle.compile.specs.Construct.{pick_algebra};

use crate::fold::{Shapes, fold_program};
use crate::rows::{Guard, PROGRAM_ROWS, Simple};
use job::task::Task;

// How many enclosing picks a shape asks for. Variable 65,535 asks for 65,536 picks, so numbers have
// 32 bits.
#[derive(Clone, Copy)]
struct PicksNeeded;

impl Shapes for PicksNeeded {
    type Value = u32;

    ghost algebra = { λ _. pick_algebra };

    fn leaf(&self, simple: Simple) -> u32 {
        match simple {
            Simple::Nil | Simple::Move(_) | Simple::Test(_) => 0,
            Simple::ObjectMove(_, b) | Simple::ObjectTest(_, b) => u32::from(b) + 1,
        }
    }

    fn any(&self) -> u32 {
        0
    }

    fn seq(&self, x: u32, y: u32) -> u32 {
        x.max(y)
    }

    fn branch(&self, _guard: Guard, x: u32, y: u32) -> u32 {
        x.max(y)
    }

    fn repeat(&self, _guard: Guard, x: u32) -> u32 {
        x
    }

    fn pick(&self, x: u32) -> u32 {
        x.saturating_sub(1)
    }
}

// Whether each variable of the job's program has its pick: it asks for none around it.
pub fn program_scoped(task: &Task) -> bool
    ensures { result ≡ program_scoped (stored_job task.now) }
{
    let mut picks = [0u32; PROGRAM_ROWS];
    fold_program(&PicksNeeded, task, &mut picks) == 0
}
