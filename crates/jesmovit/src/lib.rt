// The public operations, on any texts, lists, tables and outputs. None has a `requires`.
#![tactic(auto)]

mod checking;
mod compiling;
mod job_text;
mod judging;
mod laying;
mod preparing;

pub use checking::{check_moves, check_steps};
pub use compiling::compile;
pub use job_text::read_job;
pub use judging::{Judged, Judgement, judge, least_cost};
pub use laying::{SheetAnswer, sheet};
