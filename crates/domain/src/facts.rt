// Facts of a state, the bits of a number.
ghost use Rattle.std.specs.Prelude.{◌≡◌, cond, ◌^◌, ◌<◌};
ghost use Rattle.limits.specs.Limits.{most_facts};
ghost use Rattle.domain.specs.State.{fact as fact_in};

// Whether fact i is true in state w.
#[tactic(auto, unfolding(crate::specs::State::fact))]
pub fn fact(w: u16, i: u16) -> bool
    requires { i < most_facts }
    ensures { result ≡ fact_in w i }
{
    (w >> i) % 2 == 1
}

// The set of fact i alone where `on` is true, and else of none. No branch depends on `on`.
pub fn fact_where(on: bool, i: u16) -> u16
    requires { i < most_facts }
    ensures { result ≡ cond on (2 ^ i) 0 }
{
    u16::from(on) << i
}
