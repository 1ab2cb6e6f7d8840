// A job text, read line by line into a head of numbers and rows.
#![tactic(auto)]

pub mod line;
pub mod reading;
pub mod taking;
