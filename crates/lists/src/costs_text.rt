// Costs texts, read into a list of class costs.
ghost use Rattle.std.specs.Prelude.{◌≡◌};
ghost use Rattle.lists.specs.CostsText.{read_costs};

use crate::counted::{Ranges, read_list};
use arrayvec::ArrayVec;
use limits::CLASSES;

// What classes may cost: "Class 0 must cost 0."
const RANGES: Ranges = Ranges {
    least: CLASSES as u16,
    most: CLASSES as u16,
    first: 1,
    rest: (limits::CLASS_COST as u32) + 1,
};

// Reads any bytes as a costs text, class 0 first; or answers at which line it is refused.
pub fn read_costs(text: &[u8]) -> Result<[u16; CLASSES], usize>
    ensures { result ≡ read_costs text.now }
{
    let mut costs = ArrayVec::<u16, CLASSES>::new();
    read_list(text, b"costs", b"c", RANGES, &mut costs)?;
    Ok(costs.into_inner().unwrap())
}
