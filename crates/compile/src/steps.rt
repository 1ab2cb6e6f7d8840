// The steps that each row of the compiling table adds to those of its parts.
ghost use Rattle.std.specs.Prelude.{◌≡◌, [], ◌∷◌, ◌+◌, ◌*◌, ◌≤◌, ◌<◌, length};
ghost use Rattle.semantics.specs.CompilingTable.{arc, flat, move_steps, branch_steps, pick_steps};
ghost use Rattle.compile.specs.Construct.{leaf_label, BaseRight, HasObject, first_label, second_label, loop_steps};
ghost use Rattle.compile.specs.Label.{label_of};
ghost use Rattle.compile.specs.Laid.{LaidOver};

use crate::env::Env;
use crate::label::Label;
use crate::rows::{Guard, Simple};
use crate::writing::{Cursor, Step, put_each, put_step, put_steps};

fn leaf_label(simple: Simple, env: &Env) -> Label
    requires { BaseRight simple × HasObject env.now simple }
    ensures { label_of result ≡ leaf_label env.now simple }
{
    match simple {
        Simple::Nil => Label::Free,
        Simple::Move(a) => Label::Make(a),
        Simple::Test(a) => Label::Test(a),
        Simple::ObjectMove(a, b) => Label::Make(a + env.object_of(b)),
        Simple::ObjectTest(a, b) => Label::Test(a + env.object_of(b)),
    }
}

// The labels of the two ways.
fn guard_labels(guard: Guard) -> (Label, Label)
    ensures { (label_of result.0 ≡ first_label guard) × (label_of result.1 ≡ second_label guard) }
{
    match guard {
        Guard::Free => (Label::Free, Label::Free),
        Guard::On(a) => (Label::Test(a), Label::Fails(a)),
    }
}

// One step to the next position.
pub fn leaf_step(list: &mut [u16], from: Cursor, simple: Simple, env: &Env) -> Cursor
    requires object { BaseRight simple × HasObject env.now simple }
    requires room { (from.at + 4 ≤ length list.old) × (from.position < 65535) }
    ensures { LaidOver (flat (arc (leaf_label env.now simple) from.position (from.position + 1) ∷ []))
        list.old from.at list.new result.at × (result.position ≡ from.position + 1) }
{
    let n = from.position;
    let step = Step(leaf_label(simple, env), n, n + 1);
    Cursor {
        position: n + 1,
        at: put_step(list, from.at, step),
    }
}

// A step to the next position for each move.
pub fn any_steps(list: &mut [u16], from: Cursor, moves: u16) -> Cursor
    requires { (from.at + moves * 4 ≤ length list.old) × (from.position < 65535) }
    ensures { LaidOver (flat (move_steps moves 0 from.position)) list.old from.at list.new result.at ×
        (result.position ≡ from.position + 1) }
{
    let n = from.position;
    let after = n + 1;
    Cursor {
        position: after,
        at: put_each(list, from.at, moves, |m| Step(Label::Make(m), n, after)),
    }
}

// The steps from n after two branches, of which the first ends at p and the second at the cursor.
pub fn branch_steps(list: &mut [u16], n: u16, p: u16, from: Cursor, guard: Guard) -> Cursor
    requires { (from.at + 16 ≤ length list.old) × (n < 65535) × (p < 65535) × (from.position < 65535) }
    ensures { LaidOver (flat (branch_steps (first_label guard) (second_label guard) n p from.position)) list.old from.at list.new result.at ×
        (result.position ≡ from.position + 1) }
{
    let q = from.position;
    let (first, second) = guard_labels(guard);
    let steps = [
        Step(first, n, n + 1),
        Step(second, n, p + 1),
        Step(Label::Free, p, q + 1),
        Step(Label::Free, q, q + 1),
    ];
    Cursor {
        position: q + 1,
        at: put_steps(list, from.at, &steps),
    }
}

// The steps from n of a loop after its part, which ends at the cursor.
pub fn loop_steps(list: &mut [u16], n: u16, from: Cursor, guard: Guard) -> Cursor
    requires { (from.at + 12 ≤ length list.old) × (n < 65535) × (from.position < 65535) }
    ensures { LaidOver (flat (loop_steps guard n from.position)) list.old from.at list.new result.at × (result.position ≡ from.position + 1) }
{
    let p = from.position;
    let steps = match guard {
        Guard::Free => [
            Step(Label::Free, n, n + 1),
            Step(Label::Free, p, n),
            Step(Label::Free, n, p + 1),
        ],
        Guard::On(a) => [
            Step(Label::Test(a), n, n + 1),
            Step(Label::Fails(a), n, p + 1),
            Step(Label::Free, p, n),
        ],
    };
    Cursor {
        position: p + 1,
        at: put_steps(list, from.at, &steps),
    }
}

// The steps from n of a pick after the copies of its body, which start so far apart.
pub fn pick_steps(list: &mut [u16], at: usize, n: u16, apart: u16, objects: u16) -> Cursor
    requires { (at + objects * 8 ≤ length list.old) × (n + apart + apart * objects < 65535) }
    ensures { LaidOver (flat (pick_steps objects n (λ k. n + 1 + apart * k) (λ k. n + apart + apart * k))) list.old at list.new
        result.at × (result.position ≡ n + 1 + apart * objects) }
{
    let end = n + 1 + apart * objects;
    let into = |o| Step(Label::Free, n, n + 1 + apart * o);
    let out = |o| Step(Label::Free, n + apart + apart * o, end);
    let entered = put_each(list, at, objects, into);
    let left = put_each(list, entered, objects, out);
    Cursor {
        position: end,
        at: left,
    }
}
