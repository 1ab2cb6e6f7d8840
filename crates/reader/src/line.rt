// The numbers of the line that comes next.
ghost use Rattle.std.specs.Prelude.{◌≡◌, ◌≤◌};
ghost use Rattle.text.specs.Lines.{value_of};
ghost use Rattle.job.specs.Line.{form_of, line_numbers};
ghost use Rattle.job.specs.Store.{numbers_of};

use job::line::{Heading, Line, RowSort};
use job::rows::WIDTH;

// How many numbers a line has.
fn width(next: Line) -> usize
    ensures value { result ≡ (form_of next).width }
    ensures bound { result ≤ 8 }
{
    match next {
        Line::One(_) => 1,
        Line::Of(RowSort::Formula) => 3,
        Line::Of(RowSort::Move) => 5,
        Line::Of(RowSort::Effect) => 3,
        Line::Of(RowSort::Row) => 4,
        Line::End => 0,
    }
}

fn heading_key(heading: Heading) -> &'static [u8]
    ensures { result.now ≡ (form_of (Line.One heading)).key }
{
    match heading {
        Heading::Job => b"job",
        Heading::Facts => b"facts",
        Heading::Init => b"init",
        Heading::Formulas => b"formulas",
        Heading::Moves => b"moves",
        Heading::Goal => b"goal",
        Heading::Objects => b"objects",
        Heading::Program => b"program",
    }
}

// A line's key.
fn key(next: Line) -> &'static [u8]
    ensures { result.now ≡ (form_of next).key }
{
    match next {
        Line::One(heading) => heading_key(heading),
        Line::Of(RowSort::Formula) => b"f",
        Line::Of(RowSort::Move) => b"m",
        Line::Of(RowSort::Effect) => b"e",
        Line::Of(RowSort::Row) => b"p",
        Line::End => b"",
    }
}

// The numbers of a line that is to be the one that comes next, none where it lacks that form; those
// that its sort doesn't have are 0.
pub fn read_line(next: Line, line: &[u8]) -> Option<[u16; WIDTH]>
    ensures { numbers_of next result ≡ line_numbers next line.now }
{
    let mut numbers = [0u16; WIDTH];
    let value = text::lines::value(line, key(next));
    text::numbers::read_numbers(value, &mut numbers[..width(next)]).then_some(numbers)
}
