// Refusals: "A refusal returns its number and place".
ghost use Rattle.std.specs.Prelude.{◌≡◌};
ghost use Rattle.job.specs.Refusal.{number_of};

// Why a text, a list, a table or an output is refused.
#[derive(Clone, Copy, PartialEq, Eq)]
pub enum Reason {
    // A line of the job text has the wrong form, is missing or extra.
    Form = 1,
    // A count, or init, is outside its range.
    Range = 2,
    // A kind, reference, class, value or unused field is wrong.
    Reference = 3,
    // The compiled job is too large.
    Size = 4,
    // The plan text.
    Plan = 5,
    // A list, a table or an output is too short.
    Room = 6,
    // The costs text.
    Costs = 7,
    // A variable of the program has too few enclosing picks.
    Pick = 8,
}

// A reason's number.
impl From<Reason> for u8 {
    ghost from_gives = { λ reason number. number ≡ number_of reason };

    fn from(reason: Reason) -> u8 {
        reason as u8
    }
}

// Why a text is refused, and the place.
#[derive(Clone, Copy)]
pub struct Refusal {
    pub reason: Reason,
    pub place: usize,
}
