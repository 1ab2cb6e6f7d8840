// What a job's program gives, row by row, where each shape gives something from what its parts give.
ghost use Rattle.std.specs.Prelude.{◌≡◌, ◌≤◌, length, slice_index_or};
ghost use Rattle.job.specs.StoredTask.{stored_job};
ghost use Rattle.compile.specs.Program.{program_of};
ghost use Rattle.compile.specs.Construct.{Algebra, fold_in, fold, Refers};

use crate::rows::{Construct, Guard, Simple};
use job::task::Task;

// What each shape gives.
pub(crate) trait Shapes {
    type Value: Copy;

    ghost algebra: { Self → Algebra Self.Value };

    fn leaf(&self, simple: Simple) -> Self::Value
        ensures { result ≡ (algebra self.now).leaf simple };

    fn any(&self) -> Self::Value
        ensures { result ≡ (algebra self.now).any };

    fn seq(&self, x: Self::Value, y: Self::Value) -> Self::Value
        ensures { result ≡ (algebra self.now).seq x y };

    fn branch(&self, guard: Guard, x: Self::Value, y: Self::Value) -> Self::Value
        ensures { result ≡ (algebra self.now).branch guard x y };

    fn repeat(&self, guard: Guard, x: Self::Value) -> Self::Value
        ensures { result ≡ (algebra self.now).loop guard x };

    fn pick(&self, x: Self::Value) -> Self::Value
        ensures { result ≡ (algebra self.now).pick x };
}

// What a row gives, from what the rows that it refers to give.
fn row_value<S: Shapes>(shapes: &S, construct: Construct, values: &[S::Value]) -> S::Value
    requires { Refers (length values.now) construct }
    ensures { result ≡ fold_in (S.algebra shapes.now) (λ k. slice_index_or values.now k (S.algebra shapes.now).any) construct }
{
    match construct {
        Construct::Leaf(simple) => shapes.leaf(simple),
        Construct::Any => shapes.any(),
        Construct::Seq(a, b) => shapes.seq(values[a as usize], values[b as usize]),
        Construct::Branch(guard, a, b) => {
            shapes.branch(guard, values[a as usize], values[b as usize])
        }
        Construct::Loop(guard, a) => shapes.repeat(guard, values[a as usize]),
        Construct::Pick(a) => shapes.pick(values[a as usize]),
    }
}

// What the last row gives, which is the program. The list for what each row gives is lent: that an array
// of any type's values fits in memory isn't known here.
pub(crate) fn fold_program<S: Shapes>(shapes: &S, task: &Task, values: &mut [S::Value]) -> S::Value
    requires { task.now.head.counts.program ≤ length values.old }
    ensures { result ≡ fold (S.algebra shapes.now) (program_of (stored_job task.now)) }
{
    let rows = task.head.counts.program;
    for i in 0..rows {
        let construct = crate::rows::construct_at(task, i);
        values[i as usize] = row_value(shapes, construct, values);
    }
    values[rows as usize - 1]
}
