// Plans against a compiled job: the set of positions that a program may be at, and verdicts.
#![tactic(auto)]

pub mod moves;
pub mod position_set;
pub mod steps;
pub mod verdict;
