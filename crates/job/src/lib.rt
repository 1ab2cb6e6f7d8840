// A job: its head of numbers, its rows, which reason refuses a line of its text, and class costs.
#![tactic(auto)]

pub mod costs;
pub mod fault;
pub mod fields;
pub mod head;
pub mod line;
pub mod refusal;
pub mod rows;
pub mod states;
pub mod stored;
pub mod task;
