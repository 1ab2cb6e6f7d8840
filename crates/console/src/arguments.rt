// Files that the arguments name.
ghost use Rattle.std.specs.Prelude.{◌≤◌, length, IfSome};

use crate::failure::{NAME_TOO_LONG, NOT_TEXT, fail};
use crate::files::read_file;
use std::env::{Env, FillError};
use std::io::Error;
use std::rt::Files;

// How many bytes an argument may have. A path of that many is already one too long for the system.
const PATH: usize = 4096;

// The path in argument i, which the buffer has room for, where there is such an argument. Where it
// is none that can be used, there is no answer, and standard error has said why.
fn named_by<'a, R: Env + Eprint>(rt: &R, i: usize, buf: &'a mut [u8]) -> Option<Option<&'a str>> {
    let unusable = match rt.arg(i, buf) {
        Ok(n) => match str::from_utf8(&buf[..n]) {
            Ok(path) => return Some(Some(path)),
            Err(_) => NOT_TEXT,
        },
        Err(FillError::NotPresent) => return Some(None),
        Err(FillError::TooLong) => NAME_TOO_LONG,
    };
    fail(rt, "argument", Error::from_raw_os_error(unusable));
    None
}

// Fills the buffer from the file that argument i names, or from `otherwise` where there is no such
// argument, and lends the text. Where there is none, standard error has said why.
pub fn read_argument<'a, R: Files + Env + Eprint>(
    rt: &R,
    i: usize,
    otherwise: &str,
    buf: &'a mut [u8],
) -> Option<&'a [u8]>
    ensures { IfSome result (λ text. length text.now ≤ length buf.old) }
{
    let mut room = [0u8; PATH];
    let path = named_by(rt, i, &mut room)?.unwrap_or(otherwise);
    read_file(rt, path, buf)
}

// Fills the buffer from the file that argument i names, and lends the text; no such argument, or
// `-`, gives no text. Where one is named and can't be read, there is no answer, and standard error
// has said why.
pub fn read_given<'a, R: Files + Env + Eprint>(
    rt: &R,
    i: usize,
    buf: &'a mut [u8],
) -> Option<Option<&'a [u8]>>
    ensures { IfSome result (λ given. IfSome given (λ text. length text.now ≤ length buf.old)) }
{
    let mut room = [0u8; PATH];
    match named_by(rt, i, &mut room)? {
        Some(path) if path != "-" => Some(Some(read_file(rt, path, buf)?)),
        _ => Some(None),
    }
}
