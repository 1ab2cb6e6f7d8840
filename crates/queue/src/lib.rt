// A queue of states: their keys, and an order that names a state of least key.
#![tactic(auto)]

pub mod queue;

// The key of a state that is not in the queue.
pub const NO_KEY: u64 = u64::MAX;
