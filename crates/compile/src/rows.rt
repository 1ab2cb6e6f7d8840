// Program rows of a job.
ghost use Rattle.std.specs.Prelude.{◌<◌};
ghost use Rattle.job.specs.StoredTask.{stored_job};
ghost use Rattle.compile.specs.Program.{row_program};
ghost use Rattle.compile.specs.Construct.{RowSays};

use job::stored::ProgramRow;
use job::task::Task;

// How many program rows a job may have.
pub const PROGRAM_ROWS: usize = limits::PROGRAM as usize;

// A row of one step. Of a move and a test of a variable: the number to which the object is added,
// and the variable.
#[derive(Clone, Copy)]
pub enum Simple {
    Nil,
    Move(u16),
    Test(u16),
    ObjectMove(u16, u16),
    ObjectTest(u16, u16),
}

// Which of two ways is taken: either, or the first where a formula holds and the second where it
// fails.
#[derive(Clone, Copy)]
pub enum Guard {
    Free,
    On(u16),
}

// The shape of a row, with the rows that it refers to.
#[derive(Clone, Copy)]
pub enum Construct {
    Leaf(Simple),
    Any,
    Seq(u16, u16),
    Branch(Guard, u16, u16),
    Loop(Guard, u16),
    Pick(u16),
}

// What a row says, by its kind.
impl From<ProgramRow> for Construct {
    ghost use Rattle.std.specs.Prelude.{◌≡◌};
    ghost use Rattle.job.specs.Store.{row_in};
    ghost use Rattle.compile.specs.Construct.{construct_of};

    ghost from_gives = { λ row construct. construct ≡ construct_of (row_in row) };

    fn from(row: ProgramRow) -> Construct {
        match row.kind {
            0 => Construct::Leaf(Simple::Nil),
            1 => Construct::Leaf(Simple::Move(row.a)),
            2 => Construct::Any,
            3 => Construct::Leaf(Simple::Test(row.a)),
            4 => Construct::Seq(row.a, row.b),
            5 => Construct::Branch(Guard::On(row.a), row.b, row.c),
            6 => Construct::Branch(Guard::Free, row.a, row.b),
            7 => Construct::Loop(Guard::On(row.a), row.b),
            8 => Construct::Loop(Guard::Free, row.a),
            9 => Construct::Pick(row.a),
            10 => Construct::Leaf(Simple::ObjectMove(row.a, row.b)),
            11 => Construct::Leaf(Simple::ObjectTest(row.a, row.b)),
            _ => Construct::Leaf(Simple::Nil), // no row is of another kind
        }
    }
}

// Row i of the job's program.
pub fn construct_at(task: &Task, i: u16) -> Construct
    requires { i < task.now.head.counts.program }
    ensures { RowSays (row_program (stored_job task.now).program) i result }
{
    Construct::from(job::stored::program_row_at(task.head, task.rows, i))
}
