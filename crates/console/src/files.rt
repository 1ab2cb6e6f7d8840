// Files, read into buffers.
ghost use Rattle.std.specs.Prelude.{◌<◌, ◌≤◌, length, take, IfOk, IfSome};
ghost use Rattle.std.specs.Io.KnownBytes.{Consumes, IsAtEnd};
ghost use Rattle.console.specs.Filled.{IsPrefixLen};

use crate::failure::fail;
use std::fs::File;
use std::io;
use std::io::Read;
use std::rt::Files;

// How many bytes a text's buffer holds. What a file has beyond them is not read.
pub const TEXT: usize = 65536;

// Fills the buffer from a reader, to its end or until the buffer is full, and returns how many bytes
// that were.
pub fn fill<F: Read>(file: &mut F, buf: &mut [u8]) -> io::Result<usize>
    ensures in_bounds { IfOk result (λ n. IsPrefixLen n buf.new) }
    ensures bytes { IfOk result (λ n. Consumes (F.remaining file.old) (F.remaining file.new) (take n buf.new)) }
    ensures end { IfOk result (λ n. n < length buf.new → IsAtEnd (F.remaining file.new)) }
{
    let mut n = 0;
    // A while: how far each read goes is known only after it.
    while n < buf.len() {
        let more = file.read(&mut buf[n..])?;
        if more == 0 {
            return Ok(n);
        }
        n += more;
    }
    Ok(n)
}

// Fills the buffer from the file at a path.
fn fill_from<R: Files>(rt: &R, path: &str, buf: &mut [u8]) -> io::Result<usize>
    ensures { IfOk result (λ n. IsPrefixLen n buf.new) }
{
    let mut file = File::open(rt, path)?;
    fill(&mut file, buf)
}

// Fills the buffer from the file at a path, and lends what it filled. Where the file can't be read,
// standard error has said why.
pub fn read_file<'a, R: Files + Eprint>(rt: &R, path: &str, buf: &'a mut [u8]) -> Option<&'a [u8]>
    ensures { IfSome result (λ text. length text.now ≤ length buf.old) }
{
    match fill_from(rt, path, buf) {
        Ok(n) => Some(&buf[..n]),
        Err(error) => {
            fail(rt, path, error);
            None
        }
    }
}
