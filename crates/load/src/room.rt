// Reason 6, and the front of a list.
ghost use Rattle.std.specs.Prelude.{◌≡◌, take};

use job::refusal::{Reason, Refusal};

// The refusal of a list, a table or an output that is shorter than it has to be.
pub fn too_short(need: usize) -> Refusal
    ensures { result ≡ record { reason = Reason.Room; place = need } }
{
    Refusal {
        reason: Reason::Room,
        place: need,
    }
}

// The first n numbers of a list, as far as it goes.
pub fn front(list: &[u16], n: usize) -> &[u16]
    ensures { result.now ≡ take n list.now }
{
    list.get(..n).unwrap_or(list)
}
