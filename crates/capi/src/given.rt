// Which texts are given, as C's number says it.
ghost use Rattle.std.specs.Prelude.{◌≡◌};
ghost use Rattle.capi.specs.Given.{given_of};

use load::request::Given;

// Bit 0 says that a costs text is. No other bit is looked at.
pub fn given_in(given: u32) -> Given
    ensures { result ≡ given_of given }
{
    Given {
        costs: given % 2 == 1,
    }
}
