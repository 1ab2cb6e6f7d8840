// What a formula says.
ghost use Rattle.std.specs.Prelude.{◌≡◌};
ghost use Rattle.limits.specs.Limits.{most_facts};
ghost use Rattle.job.specs.Store.{formula_in};

use crate::facts::fact;
use crate::formulas::value_at;
use job::stored::Formula;

// A formula by its kind, with the fact or the earlier formulas that it is on.
#[derive(Clone, Copy, PartialEq, Eq)]
pub enum Meaning {
    False,
    True,
    Fact(u16),
    Not(u16),
    Both(u16, u16),
    Either(u16, u16),
}

impl From<Formula> for Meaning {
    ghost use Rattle.domain.specs.Meaning.{meaning_of};

    ghost from_gives = { λ f m. m ≡ meaning_of (formula_in f) };

    fn from(formula: Formula) -> Meaning {
        match formula.kind {
            0 => Meaning::False,
            1 => Meaning::True,
            2 => Meaning::Fact(formula.a),
            3 => Meaning::Not(formula.a),
            4 => Meaning::Both(formula.a, formula.b),
            _ => Meaning::Either(formula.a, formula.b),
        }
    }
}

impl Meaning {
    ghost use Rattle.domain.specs.Meaning.{OnFacts, told};

    // Its value in a state, from those of the formulas before it.
    pub fn value(self, state: u16, values: &[bool]) -> bool
        requires { OnFacts most_facts self }
        ensures { result ≡ told state values.now self }
    {
        match self {
            Meaning::False => false,
            Meaning::True => true,
            Meaning::Fact(a) => fact(state, a),
            Meaning::Not(a) => !value_at(values, a),
            Meaning::Both(a, b) => value_at(values, a) && value_at(values, b),
            Meaning::Either(a, b) => value_at(values, a) || value_at(values, b),
        }
    }
}
