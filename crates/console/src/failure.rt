// Messages on standard error.
use arrayvec::ArrayString;
use std::fmt::Write;
use std::io::Error;

// Linux's numbers of errors that the console finds by itself, and not by a call of the system.
pub(crate) const NAME_TOO_LONG: i32 = 36;

pub(crate) const NOT_TEXT: i32 = 84;

// How `{}` of a system's error goes on behind the system's own text: with the error's number.
const NUMBER: &str = " (os error ";

// The system's own text, of what `{}` of its error gave.
fn words_of(text: &str) -> &str {
    match text.split_once(NUMBER) {
        Some((words, _)) => words,
        None => text,
    }
}

// Writes a line to standard error: what failed, a colon and the system's text. A standard error that
// takes nothing is let be.
pub(crate) fn fail(rt: &impl Eprint, what: &str, error: Error) {
    let mut text = ArrayString::<128>::new();
    let _ = write!(text, "{error}");
    let words = words_of(text.as_str());
    let _ = eprintln!(rt; "{what}: {words}");
}
