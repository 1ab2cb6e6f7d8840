// A plan laid out for a printer: a line for each move, and pages of sixty lines.
#![tactic(auto)]

mod column;
pub mod line;
pub mod sheet;
