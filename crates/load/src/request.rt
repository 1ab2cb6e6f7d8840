// What an operation hands in beside the texts.

// Which entries a plan has.
#[derive(Clone, Copy)]
pub enum Sort {
    Moves,
    Steps,
}

// Which of the texts that may be left out are handed in.
// A flag beside the text: whatever bytes stand beside it where none is given, nothing looks at them
// (`none_given_lem`, and what C's header says of `given`).
#[derive(Clone, Copy)]
pub struct Given {
    pub costs: bool,
}

// Which texts are given; of which entries the plan text is, where there is one; how many places the
// list has; how many cells the cost table has, where there is one.
#[derive(Clone, Copy)]
pub struct Request {
    pub given: Given,
    pub plan: Option<Sort>,
    pub places: usize,
    pub cells: Option<usize>,
}
