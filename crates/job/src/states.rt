// How many states so many facts have.
ghost use Rattle.std.specs.Prelude.{◌≡◌, ◌≤◌};
ghost use Rattle.limits.specs.Limits.{most_facts};
ghost use Rattle.job.specs.StateCount.{state_count};

// One with no fact, and twice as many with each fact more.
pub fn state_count(facts: u16) -> u16
    requires { facts ≤ most_facts }
    ensures { result ≡ state_count facts }
{
    let mut count: u16 = 1;
    for _ in 0..facts {
        count *= 2;
    }
    count
}
