// Counted lists: plan texts, of moves or of steps, and costs texts.
#![tactic(auto)]

pub mod costs_text;
pub mod counted;
pub mod plan_text;
