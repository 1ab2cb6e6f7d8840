// The cost table of a compiled job, filled, and the least cost.
//
// A state has a cell for each position. Its key is at most the entry of each of its cells whose
// steps are still to follow: it is taken back when the state is swept, and comes down again with
// the cells that other states' moves lower. States are swept in the order of their keys until none
// has a key: then no step lowers an entry.
#![tactic(auto)]

pub mod fill;
pub mod least;
mod sweep;
mod table;

// What a cell holds that is not reached.
pub const UNREACHED: u64 = u64::MAX;
