// What a step is taken under.
ghost use Rattle.std.specs.Prelude.{◌≡◌};
ghost use Rattle.semantics.specs.CompilingTable.{kind_of, arg_of};
ghost use Rattle.compile.specs.Label.{label_of};

// Nothing, a formula that holds, one that fails, or a move that the step makes.
#[derive(Clone, Copy, PartialEq, Eq)]
pub enum Label {
    Free,
    Test(u16),
    Fails(u16),
    Make(u16),
}

impl Label {
    pub fn kind(self) -> u16
        ensures { result ≡ kind_of (label_of self) }
    {
        match self {
            Label::Free => 0,
            Label::Test(_) => 1,
            Label::Fails(_) => 2,
            Label::Make(_) => 3,
        }
    }

    pub fn arg(self) -> u16
        ensures { result ≡ arg_of (label_of self) }
    {
        match self {
            Label::Free => 0,
            Label::Test(a) | Label::Fails(a) | Label::Make(a) => a,
        }
    }
}

// The label of a step's kind and argument.
impl From<(u16, u16)> for Label {
    ghost use Rattle.std.specs.Prelude.{◌≡◌};
    ghost use Rattle.semantics.specs.CompilingTable.{label_in};
    ghost use Rattle.compile.specs.Label.{label_of};

    ghost from_gives = { λ numbers label. label_of label ≡ label_in numbers.0 numbers.1 };

    fn from(numbers: (u16, u16)) -> Label {
        let (kind, arg) = numbers;
        match kind {
            0 => Label::Free,
            1 => Label::Test(arg),
            2 => Label::Fails(arg),
            _ => Label::Make(arg),
        }
    }
}
