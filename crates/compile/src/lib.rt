// The compiler: from a job's program rows to the steps of the compiling table.
#![tactic(auto)]

pub mod env;
pub mod fold;
pub mod label;
pub mod program;
pub mod rows;
pub mod scope;
pub mod sizes;
pub mod steps;
pub mod writing;
