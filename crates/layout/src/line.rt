// Lines of a sheet, each of 30 bytes and a line feed.
ghost use Rattle.std.specs.Prelude.{◌≡◌, ◌+◌, ◌≤◌, length};
ghost use Rattle.std.proofs.lemmas.List.Edits.{sets};
ghost use Rattle.layout.specs.Sheet.{line_size, line_bytes, FitsColumns, blank_line};

use crate::column::column;

// Bytes of a line, without its line feed and with it.
const WIDTH: usize = 30;

pub const LINE: usize = WIDTH + 1;

// A move's line: its row, counted from 1, the move, its cost, and the costs up to it.
#[derive(Clone, Copy)]
pub struct SheetLine {
    pub row: u64,
    pub action: u64,
    pub cost: u64,
    pub total: u64,
}

// A move's line, over the bytes of just this line. Two spaces and a number set right behind them are
// a column that is two wider.
fn lay_line(out: &mut [u8], line: SheetLine)
    requires size { length out.old ≡ line_size }
    requires fits { FitsColumns line }
    ensures { out.new ≡ line_bytes line }
{
    column(&mut out[..5], line.row);
    column(&mut out[5..10], line.action);
    column(&mut out[10..19], line.cost);
    column(&mut out[19..WIDTH], line.total);
    out[WIDTH] = b'\n';
}

// A line of spaces, over the bytes of just this line.
fn lay_blank(out: &mut [u8])
    requires { length out.old ≡ line_size }
    ensures { out.new ≡ blank_line }
{
    out.fill(b' ');
    out[WIDTH] = b'\n';
}

// A move's line, from a place of the output on.
pub fn put_line(out: &mut [u8], at: usize, line: SheetLine)
    requires room { at + line_size ≤ length out.old }
    requires fits { FitsColumns line }
    ensures { out.new ≡ sets out.old at (line_bytes line) }
{
    lay_line(&mut out[at..at + LINE], line);
}

// A line of spaces, from a place of the output on.
pub fn put_blank(out: &mut [u8], at: usize)
    requires { at + line_size ≤ length out.old }
    ensures { out.new ≡ sets out.old at blank_line }
{
    lay_blank(&mut out[at..at + LINE]);
}
