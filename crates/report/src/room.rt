// Room for what a program prints, a sheet apart.
use arrayvec::ArrayString;

// How many bytes are printed at the most: two lines and 1,024 of four numbers, of 86 bytes at the
// most each, and three lines more.
pub const ROOM: usize = 90112;

pub type Printout = ArrayString<ROOM>;
