// What is known of a text beside a job's rows.

// How many facts, objects and rows of each sort a job has.
#[derive(Clone, Copy, Default)]
pub struct Counts {
    pub facts: u16,
    pub formulas: u16,
    pub moves: u16,
    pub effects: u16,
    pub objects: u16,
    pub program: u16,
}

// A job but for its rows, which stand in an array.
#[derive(Clone, Copy, Default)]
pub struct Head {
    pub counts: Counts,
    pub init: u16,
    pub goal: u16,
}
