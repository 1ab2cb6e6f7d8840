// The steps of a list.
ghost use Rattle.std.specs.Prelude.{◌≡◌, ◌/◌, ◌<◌, length};
ghost use Rattle.compiled.specs.StepList.{start_in};
ghost use Rattle.compiled.specs.Steps.{label_of, IsStep, silent_by};

use compile::label::Label;
use domain::formulas::value_at;

// A step of the list, but for where it starts.
#[derive(Clone, Copy)]
pub struct OutStep {
    pub label: Label,
    pub to: u16,
}

impl OutStep {
    // What stands in place of a step that is not read.
    pub const UNREAD: OutStep = OutStep {
        label: Label::Free,
        to: 0,
    };

    // Whether it can be made silently, by the formulas' values.
    #[tactic(auto, unfolding(crate::specs::Steps::silent_by))]
    pub fn is_silent(&self, values: &[bool]) -> bool
        ensures { result ≡ silent_by values.now (label_of self.now) }
    {
        match self.label {
            Label::Free => true,
            Label::Test(a) | Label::Fails(a) => {
                value_at(values, a) == matches!(self.label, Label::Test(_))
            }
            Label::Make(_) => false,
        }
    }
}

// Where step k of the list starts.
pub fn start_at(list: &[u16], k: usize) -> u16
    requires { k < length list.now / 4 }
    ensures { result ≡ start_in list.now k }
{
    list[k * 4 + 1]
}

// Step k of the list, but for where it starts.
pub fn step_at(list: &[u16], k: usize) -> OutStep
    requires { k < length list.now / 4 }
    ensures { IsStep list.now k result }
{
    OutStep {
        label: Label::from((list[k * 4], list[k * 4 + 3])),
        to: list[k * 4 + 2],
    }
}
