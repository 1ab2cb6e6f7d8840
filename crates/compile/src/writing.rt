// Steps, four numbers each, written into a lent list.
ghost use Rattle.std.specs.Prelude.{◌≡◌, ℕ, [], ◌∷◌, ◌+◌, ◌*◌, ◌≤◌, ◌<◌, length, map};
ghost use Rattle.semantics.specs.CompilingTable.{Step as Arc, flat};
ghost use Rattle.compile.specs.Laid.{arc_of, next, each, Gives, LaidOver};

use crate::label::Label;

// A step under a label, from a position to a position.
#[derive(Clone, Copy)]
pub struct Step(pub Label, pub u16, pub u16);

// From which position the next part is compiled, and where in the list its steps begin. The list stays
// beside it: a struct that holds a lent list has to promise in each method that it holds the same one.
#[derive(Clone, Copy)]
pub struct Cursor {
    pub position: u16,
    pub at: usize,
}

impl Cursor {
    // One position on.
    pub fn next(self) -> Cursor
        requires { self.position < 65535 }
        ensures { result ≡ next self }
    {
        Cursor {
            position: self.position + 1,
            at: self.at,
        }
    }
}

pub(crate) fn put_step(list: &mut [u16], at: usize, step: Step) -> usize
    requires { at + 4 ≤ length list.old }
    ensures { LaidOver (flat (arc_of step ∷ [])) list.old at list.new result }
{
    let Step(label, from, to) = step;
    let numbers = [label.kind(), from, to, label.arg()];
    list[at..at + 4].copy_from_slice(&numbers);
    at + 4
}

pub(crate) fn put_steps(list: &mut [u16], at: usize, steps: &[Step]) -> usize
    requires { at + length steps.now * 4 ≤ length list.old }
    ensures { LaidOver (flat (map arc_of steps.now)) list.old at list.new result }
{
    let mut next = at;
    for step in steps {
        next = put_step(list, next, *step);
    }
    next
}

// The step that each number below a count gives.
pub(crate) fn put_each<F: Fn(u16) -> Step>(
    list: &mut [u16],
    at: usize,
    count: u16,
    step: F,
) -> usize
    requires callable { (k : ℕ) → k < count → F.pre step k }
    requires room { at + count * 4 ≤ length list.old }
    ensures laid { (g : ℕ → Arc) → Gives (F.post step) count g → LaidOver (flat (each count g)) list.old at list.new result }
    ensures place { result ≡ at + count * 4 }
{
    let mut next = at;
    for k in 0..count {
        next = put_step(list, next, step(k));
    }
    next
}
