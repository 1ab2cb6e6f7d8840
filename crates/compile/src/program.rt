// The compiler.
ghost use Rattle.std.specs.Prelude.{◌≡◌, true, ◌+◌, ◌*◌, ◌≤◌, ◌<◌, length};
ghost use Rattle.std.proofs.lemmas.List.Edits.{sets};
ghost use Rattle.limits.specs.Limits.{most_program};
ghost use Rattle.job.specs.StoredTask.{stored_job};
ghost use Rattle.semantics.specs.CompilingTable.{flat};
ghost use Rattle.semantics.specs.Program.{pick};
ghost use Rattle.compile.specs.Program.{row_program};
ghost use Rattle.compile.specs.CompiledJob.{steps_of, step_count, fits, program_scoped};
ghost use Rattle.compile.specs.Laid.{RowLaid, Enough};

use crate::env::Env;
use crate::rows::Construct;
use crate::writing::Cursor;
use job::task::Task;

// Writes the steps of row i, compiled from the cursor's position inside picks of these objects, at its
// place in the list.
#[cycle(compile_pick_compile_row)]
fn compile_row(task: &Task, i: u16, list: &mut [u16], from: Cursor, env: &mut Env) -> Cursor
    requires bounds { (i < task.now.head.counts.program) × (length env.old + i < most_program) }
    requires enough { Enough task.now.head.counts env.old (row_program (stored_job task.now).program i) from (length list.old) }
    ensures { RowLaid task.now.head.counts (row_program (stored_job task.now).program i) env.old list.old from
        list.new result env.new }
{
    let n = from.position;
    match crate::rows::construct_at(task, i) {
        Construct::Leaf(simple) => crate::steps::leaf_step(list, from, simple, env),
        Construct::Any => crate::steps::any_steps(list, from, task.head.counts.moves),
        Construct::Seq(a, b) => {
            let x = compile_row(task, a, list, from, env);
            compile_row(task, b, list, x, env)
        }
        Construct::Branch(guard, a, b) => {
            let x = compile_row(task, a, list, from.next(), env);
            let y = compile_row(task, b, list, x.next(), env);
            crate::steps::branch_steps(list, n, x.position, y, guard)
        }
        Construct::Loop(guard, a) => {
            let x = compile_row(task, a, list, from.next(), env);
            crate::steps::loop_steps(list, n, x, guard)
        }
        Construct::Pick(a) => compile_pick(task, a, list, from, env),
    }
}

// Writes the steps of a pick whose body is row a: a copy for each object, and then the steps to and
// from them.
#[cycle(compile_pick_compile_row)]
fn compile_pick(task: &Task, a: u16, list: &mut [u16], from: Cursor, env: &mut Env) -> Cursor
    requires bounds { (a < task.now.head.counts.program) × (length env.old + a + 1 < most_program) }
    requires enough { Enough task.now.head.counts env.old (pick (row_program (stored_job task.now).program a)) from (length list.old) }
    ensures { RowLaid task.now.head.counts (pick (row_program (stored_job task.now).program a)) env.old list.old from
        list.new result env.new }
{
    let objects = task.head.counts.objects;
    let first = from.next();
    if objects == 0 {
        return first;
    }
    let mut next = first;
    for o in 0..objects {
        env.enter(o);
        let x = compile_row(task, a, list, next, env);
        env.leave();
        next = x.next();
    }
    let apart = (next.position - first.position) / objects;
    crate::steps::pick_steps(list, next.at, from.position, apart, objects)
}

// Writes the steps of the job's program over the front of the list.
pub fn compile(task: &Task, list: &mut [u16])
    requires scoped { program_scoped (stored_job task.now) ≡ true }
    requires fits { (fits (stored_job task.now) ≡ true) × (step_count (stored_job task.now) * 4 ≤ length list.old) }
    ensures { list.new ≡ sets list.old 0 (flat (steps_of (stored_job task.now))) }
{
    let start = Cursor { position: 0, at: 0 };
    let last = task.head.counts.program - 1;
    let mut env = Env::new();
    let _ = compile_row(task, last, list, start, &mut env);
}
