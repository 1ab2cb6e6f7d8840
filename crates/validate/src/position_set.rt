// The set of positions that a program may be at.
ghost use Rattle.std.proofs.Props.{props};
ghost use Rattle.std.specs.Prelude.{◌≡◌, true, false, ◌<◌, get_or, set, replicate};
ghost use Rattle.limits.specs.Limits.{most_positions};
ghost use Rattle.semantics.specs.PositionSets.{closure, spread, is_move};
ghost use Rattle.compiled.specs.StepList.{steps_on};
ghost use Rattle.compiled.specs.Steps.{silent_by};
ghost use Rattle.validate.specs.Counted.{Counted};

use compile::label::Label;
use compiled::index::StepIndex;
use compiled::steps::OutStep;
use domain::formulas::value_at;
use limits::POSITIONS;

// One mark a position, how many are set, and the marked positions in the order in which they were
// marked. Of plain arrays, so that it is copied and each method takes it by value.
#[derive(Clone, Copy)]
pub struct PositionSet {
    pub marks: [bool; POSITIONS],
    pub members: [u16; POSITIONS],
    pub count: usize,
    pub ghost counted: { Counted marks members count } by { Prim.hlevel props },
}

// Whether a position is marked; one past the last mark is not.
pub fn is_marked(marks: &[bool], q: u16) -> bool
    ensures { result ≡ get_or marks.now q false }
{
    value_at(marks, q)
}

impl PositionSet {
    ghost use Rattle.validate.specs.Positions.{Marking, Follows};

    // No position.
    fn empty() -> PositionSet
        ensures marks { result.marks ≡ replicate most_positions false }
        ensures count { result.count ≡ 0 }
    {
        PositionSet {
            marks: [false; POSITIONS],
            members: [0; POSITIONS],
            count: 0,
        }
    }

    // Position 0 alone.
    pub fn start() -> PositionSet
        ensures { result.marks ≡ set (replicate most_positions false) 0 true }
    {
        let mut set = PositionSet::empty();
        set.mark(0);
        set
    }

    fn mark(&mut self, q: u16)
        requires { q < most_positions }
        ensures { Marking q self.old self.new }
    {
        let i = q as usize;
        if self.marks[i] {
            return;
        }
        self.marks[i] = true;
        self.members[self.count] = q;
        self.count += 1;
    }

    // Marks the ends of the wanted steps from position p.
    fn follow<F: Fn(OutStep) -> bool>(&mut self, index: &StepIndex, p: u16, wanted: F)
        requires inside { p < most_positions }
        requires callable { F.IsAlwaysCallable wanted }
        ensures { Follows F.Fn wanted (steps_on index.now.list.now) p self.old self.new }
    {
        let mut next = index.last_from(p as usize);
        while let Some(k) = next {
            let step = index.step(k);
            if wanted(step) {
                self.mark(step.to);
            }
            next = index.before(k);
        }
    }

    // All that silent steps lead to, by the formulas' values.
    pub fn closed(self, index: &StepIndex, values: &[bool]) -> PositionSet
        ensures { result.marks ≡ closure (silent_by values.now) (steps_on index.now.list.now) self.marks }
    {
        let mut set = self;
        let mut at = 0;
        // A while: the set grows as it is walked.
        while at < set.count {
            let p = set.members[at];
            set.follow(index, p, |step| step.is_silent(values));
            at += 1;
        }
        set
    }

    // The positions that move m leads to, before any silent step.
    pub fn advanced(self, index: &StepIndex, m: u16) -> PositionSet
        ensures { result.marks ≡ spread (is_move m) (steps_on index.now.list.now) self.marks (replicate most_positions false) }
    {
        let mut next = PositionSet::empty();
        for p in &self.members[..self.count] {
            next.follow(
                index,
                *p,
                |step| matches!(step.label, Label::Make(a) if a == m),
            );
        }
        next
    }

    // Whether position q is in the set.
    pub fn has(self, q: u16) -> bool
        ensures { result ≡ get_or self.marks q false }
    {
        is_marked(&self.marks, q)
    }
}
