// The lines of a job text.

// The lines of one number, in the order in which they come. Rows follow those that count them.
#[derive(Clone, Copy)]
pub enum Heading {
    Job,
    Facts,
    Init,
    Formulas,
    Moves,
    Goal,
    Objects,
    Program,
}

// The sorts of rows.
#[derive(Clone, Copy)]
pub enum RowSort {
    Formula,
    Move,
    Effect,
    Row,
}

// A line of one number, or of a row; the end is where no line may come.
#[derive(Clone, Copy)]
pub enum Line {
    One(Heading),
    Of(RowSort),
    End,
}
