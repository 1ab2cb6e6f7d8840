// The objects of the picks around a row.
ghost use Rattle.std.specs.Prelude.{◌≡◌, [], ◌∷◌, ◌<◌, length, get_or, drop};
ghost use Rattle.limits.specs.Limits.{most_objects, most_program};

use arrayvec::ArrayVec;
use std::marker::Model;

// Each pick stands in a later row than its body, so there are fewer picks around a row than rows.
pub const MOST_PICKS: usize = crate::rows::PROGRAM_ROWS;

// A list of objects, the nearest pick's first.
#[derive(Drop)]
pub struct Env {
    outermost_first: ArrayVec<u16, MOST_PICKS>,
}

impl Model for Env {
    ghost use Rattle.std.specs.Prelude.{List, ℕ, ◌<◌, get_or, reverse};
    ghost use Rattle.limits.specs.Limits.{most_objects};

    ghost Value = { List ℕ };

    ghost view = { λ env. reverse env.outermost_first.items };

    ghost invariant = { λ env. (k : ℕ) → get_or (reverse env.outermost_first.items) k 0 < most_objects };
}

impl Env {
    pub fn new() -> Env
        ensures { result ≡ [] }
    {
        Env {
            outermost_first: ArrayVec::new(),
        }
    }

    // Inside one pick more.
    pub fn enter(&mut self, object: u16)
        requires { (length self.old < most_program) × (object < most_objects) }
        ensures { self.new ≡ object ∷ self.old }
    {
        self.outermost_first.push(object);
    }

    // Outside the nearest pick.
    pub fn leave(&mut self)
        ensures { self.new ≡ drop 1 self.old }
    {
        let _ = self.outermost_first.pop();
    }

    // The object of a variable, by how many picks its own is further out than the nearest.
    pub fn object_of(&self, variable: u16) -> u16
        requires { variable < length self.now }
        ensures { (result ≡ get_or self.now variable 0) × (result < most_objects) }
    {
        let at = self.outermost_first.len() - 1 - variable as usize;
        self.outermost_first[at]
    }
}
