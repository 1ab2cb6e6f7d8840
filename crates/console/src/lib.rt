// What the programs share: texts from files, and printing.
#![tactic(auto)]

pub mod arguments;
mod failure;
pub mod files;
pub mod print;
pub mod texts;
