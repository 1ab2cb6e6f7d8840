// What the programs print, as text.
#![tactic(auto)]

mod lines;
mod printouts;
mod room;

pub use printouts::{check, compile, judge, least_cost, read, sheet};
pub use room::{Printout, ROOM};
