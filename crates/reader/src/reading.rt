// Reading a job text, line by line.
ghost use Rattle.std.specs.Prelude.{◌≡◌, List, ℕ, ◌^◌, ◌<◌, length};
ghost use Rattle.job.specs.ReadJob.{begun, ended, read_job};
ghost use Rattle.job.specs.Store.{store_size};
ghost use Rattle.reader.specs.Reading.{reading_of, outcome_of};

use crate::taking::ReaderState;
use job::head::Head;
use job::line::{Heading, Line};
use job::refusal::{Reason, Refusal};

// A text that was read: how many lines it has, and the head of the job, whose rows are then stored.
#[derive(Clone, Copy)]
pub struct Read {
    pub lines: usize,
    pub head: Head,
}

fn start() -> ReaderState
    ensures { (l : List ℕ) → reading_of result l ≡ begun }
{
    ReaderState {
        next: Line::One(Heading::Job),
        due: 0,
        effects: 0,
        head: Head::default(),
    }
}

// The answer where the text has no more lines.
fn finish(state: ReaderState, lines: usize) -> Result<Read, Refusal>
    requires { lines < 2 ^ 63 }
    ensures { (l : List ℕ) → outcome_of result l ≡ ended lines (reading_of state l) }
{
    let Line::End = state.next else {
        return Err(Refusal {
            reason: Reason::Form,
            place: lines + 1,
        });
    };
    Ok(Read {
        lines,
        head: state.head,
    })
}

// Reads a text as a job, whose rows are stored.
pub fn read_job(text: &[u8], rows: &mut [u16]) -> Result<Read, Refusal>
    requires { length rows.old ≡ store_size }
    ensures { outcome_of result rows.new ≡ read_job text.now }
{
    let mut state = start();
    let mut at = 0;
    let mut n = 0;
    while at < text.len() {
        let end = text::lines::line_end(text, at);
        let line = crate::line::read_line(state.next, &text[at..end]);
        n += 1;
        let numbers = match job::fault::check_line(state.next, line, state.head.counts) {
            Ok(numbers) => numbers,
            Err(reason) => return Err(Refusal { reason, place: n }),
        };
        state = state.take_line(numbers, rows);
        at = end;
    }
    finish(state, n)
}
