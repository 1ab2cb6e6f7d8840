// The limits of a job, of its class costs, of its compiled job and of a plan; the programs' cost table.
// `specs/Limits.antt` has the same numbers, each under its sentence.
#![tactic(auto)]

// Numbers of a job text.
pub const FACTS: u16 = 12;

pub const FORMULAS: u16 = 255;

pub const MOVES: u16 = 64;

pub const MOVE_EFFECTS: u16 = 16;

pub const EFFECTS: u16 = MOVES * MOVE_EFFECTS;

pub const LAST_CLASS: u16 = 15;

pub const OBJECTS: u16 = 16;

pub const PROGRAM: u16 = 128;

// Class costs: how many there are, and the greatest.
pub const CLASSES: usize = (LAST_CLASS as usize) + 1;

pub const CLASS_COST: u16 = 65535;

// States of a job; positions and steps of its compiled job.
pub const STATES: usize = 1 << FACTS;

pub const POSITIONS: usize = 256;

pub const STEPS: usize = 1024;

// Numbers of the longest step list.
pub const LIST: usize = STEPS * 4;

// Entries of a plan.
pub const ENTRIES: usize = 4000;

// Moves of a plan that is listed.
pub const LISTED_MOVES: usize = 8;

// Numbers of the cost table of the programs judge and least_cost.
pub const PROGRAM_TABLE: usize = 6144;
