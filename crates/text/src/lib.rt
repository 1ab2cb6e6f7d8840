// The line rules that every text follows: lines, their keys, and values of numbers.
#![tactic(auto)]

pub mod lines;
pub mod numbers;
