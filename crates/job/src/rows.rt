// The rows of a job in one array, eight numbers a row, every sort from a row of its own on; its
// class costs stand behind them.
ghost use Rattle.std.specs.Prelude.{◌≡◌, ◌+◌, ◌*◌, ◌≤◌, ◌<◌, length, get_or, set};
ghost use Rattle.std.proofs.lemmas.List.Edits.{sets};
ghost use Rattle.job.specs.Store.{all_rows, width, store_size, first_effect, effect_count, row_at};

// How many numbers a row has; no other crate knows which of them is which.
pub const WIDTH: usize = 8;

// The numbers of a move's row that say how many effects it has, and which of all is its first.
pub const EFFECT_COUNT: usize = 2;

pub const FIRST_EFFECT: usize = 7;

// Where the moves, the effects and the program rows begin; the formulas come first.
pub const MOVES_FROM: u16 = limits::FORMULAS;

pub const EFFECTS_FROM: u16 = MOVES_FROM + limits::MOVES;

pub const PROGRAM_FROM: u16 = EFFECTS_FROM + limits::EFFECTS;

const ALL_ROWS: u16 = PROGRAM_FROM + limits::PROGRAM;

// Where the class costs begin: the rows take 11,768 numbers, of two bytes each.
pub const COSTS_FROM: usize = (ALL_ROWS as usize) * WIDTH;

// How many numbers there are in all.
pub const STORE: usize = COSTS_FROM + limits::CLASSES;

// How many effects a move has, by the numbers of its line.
pub fn effect_count(line: [u16; WIDTH]) -> u16
    ensures { result ≡ get_or line effect_count 0 }
{
    line[EFFECT_COUNT]
}

// The row of a line: its numbers, and how many effects stand before it, where a move's own begin.
pub fn stored_row(line: [u16; WIDTH], effects: u16) -> [u16; WIDTH]
    ensures { result ≡ set line first_effect effects }
{
    let mut numbers = line;
    numbers[FIRST_EFFECT] = effects;
    numbers
}

// The numbers of row i.
pub fn row_at(rows: &[u16], i: u16) -> [u16; WIDTH]
    requires { (i < all_rows) × (length rows.now ≡ store_size) }
    ensures { result ≡ row_at rows.now i }
{
    let at = (i as usize) * WIDTH;
    let mut numbers = [0; WIDTH];
    numbers.copy_from_slice(&rows[at..at + WIDTH]);
    numbers
}

// Row i, written anew.
pub fn put_row(rows: &mut [u16], i: u16, numbers: [u16; WIDTH])
    requires { (i < all_rows) × (length rows.old ≡ store_size) }
    ensures { rows.new ≡ sets rows.old (i * width) numbers }
{
    let at = (i as usize) * WIDTH;
    rows[at..at + WIDTH].copy_from_slice(&numbers);
}
