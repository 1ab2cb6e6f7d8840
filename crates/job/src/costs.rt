// Class costs: the house numbers, and those of a store.
ghost use Rattle.std.specs.Prelude.{◌≡◌, ◌≤◌, length};
ghost use Rattle.std.proofs.lemmas.List.Edits.{sets};
ghost use Rattle.limits.specs.Limits.{last_class};
ghost use Rattle.job.specs.Task.{house_costs, class_cost as cost_of};
ghost use Rattle.job.specs.Store.{store_size, costs_from, stored_costs};

use crate::rows::COSTS_FROM;
use limits::CLASSES;

// "Cost in tenths of a second, classes 0 to 15".
pub const HOUSE_COSTS: [u16; CLASSES] = [
    0, 5, 12, 20, 30, 45, 60, 90, 120, 180, 240, 360, 600, 900, 1800, 3600,
];

// Class costs written into a store.
pub fn put_costs(rows: &mut [u16], costs: [u16; CLASSES])
    requires { length rows.old ≡ store_size }
    ensures { rows.new ≡ sets rows.old costs_from costs }
{
    rows[COSTS_FROM..].copy_from_slice(&costs);
}

// The house numbers.
pub fn put_house_costs(rows: &mut [u16])
    requires { length rows.old ≡ store_size }
    ensures { rows.new ≡ sets rows.old costs_from house_costs }
{
    put_costs(rows, HOUSE_COSTS)
}

// What a class costs.
pub fn class_cost(rows: &[u16], class: u16) -> u16
    requires { (class ≤ last_class) × (length rows.now ≡ store_size) }
    ensures { result ≡ cost_of (stored_costs rows.now) class }
{
    rows[COSTS_FROM + (class as usize)]
}
