// A stored task's domain in code: states, start and goal, formulas' values in a state, a move's
// successor and cost. Here alone a state is a set of bits, one a fact.
#![tactic(auto)]

pub mod effects;
pub mod facts;
pub mod formulas;
pub mod meaning;
pub mod moves;
pub mod states;
pub mod world;
