// Sizes of program rows, capped so that rows which double each other neither overflow nor take
// long.
ghost use Rattle.std.specs.Prelude.{◌≡◌, true};
ghost use Rattle.job.specs.StoredTask.{stored_job};
ghost use Rattle.compile.specs.CompiledJob.{position_count, step_count, program_scoped};
ghost use Rattle.compile.specs.Size.{sized, sizes_sum, capped as cap, capped_sizes, capped_algebra};

use crate::fold::{Shapes, fold_program};
use crate::rows::{Guard, PROGRAM_ROWS, Simple};
use job::head::Counts;
use job::task::Task;
use limits::STEPS;

// What every size above a limit is counted as.
const CAP: usize = STEPS + 1;

// How many positions and steps a job's program has, or one of its rows adds.
#[derive(Clone, Copy, Default)]
pub struct Sizes {
    pub positions: u16,
    pub steps: u16,
}

fn capped(positions: usize, steps: usize) -> Sizes
    ensures { result ≡ capped_sizes (sized positions steps) }
{
    Sizes {
        positions: positions.min(CAP) as u16,
        steps: steps.min(CAP) as u16,
    }
}

// The sizes of two parts, and so many positions and steps more, capped.
fn capped_sum(x: Sizes, y: Sizes, positions: u16, steps: u16) -> Sizes
    ensures { result ≡ capped_sizes (sizes_sum x y positions steps) }
{
    capped(
        usize::from(x.positions) + usize::from(y.positions) + usize::from(positions),
        usize::from(x.steps) + usize::from(y.steps) + usize::from(steps),
    )
}

// The sizes of each shape in a job of these counts, capped.
#[derive(Clone, Copy)]
struct CappedSizes {
    counts: Counts,
}

impl Shapes for CappedSizes {
    type Value = Sizes;

    ghost algebra = { λ shapes. capped_algebra shapes.counts };

    fn leaf(&self, _simple: Simple) -> Sizes {
        capped_sum(Sizes::default(), Sizes::default(), 1, 1)
    }

    fn any(&self) -> Sizes {
        capped_sum(Sizes::default(), Sizes::default(), 1, self.counts.moves)
    }

    fn seq(&self, x: Sizes, y: Sizes) -> Sizes {
        capped_sum(x, y, 0, 0)
    }

    fn branch(&self, _guard: Guard, x: Sizes, y: Sizes) -> Sizes {
        capped_sum(x, y, 3, 4)
    }

    fn repeat(&self, _guard: Guard, x: Sizes) -> Sizes {
        capped_sum(x, Sizes::default(), 2, 3)
    }

    // A copy for each object, with the steps to and from it.
    fn pick(&self, x: Sizes) -> Sizes {
        let objects = usize::from(self.counts.objects);
        capped(
            objects * (usize::from(x.positions) + 1) + 1,
            objects * (usize::from(x.steps) + 2),
        )
    }
}

// The sizes of the compiled job, capped: it has one position more than its program adds.
pub fn measure(task: &Task) -> Sizes
    requires { program_scoped (stored_job task.now) ≡ true }
    ensures { (result.positions ≡ cap (position_count (stored_job task.now))) × (result.steps ≡ cap (step_count (stored_job task.now))) }
{
    let shapes = CappedSizes {
        counts: task.head.counts,
    };
    let mut sizes = [Sizes::default(); PROGRAM_ROWS];
    let added = fold_program(&shapes, task, &mut sizes);
    capped(usize::from(added.positions) + 1, usize::from(added.steps))
}
