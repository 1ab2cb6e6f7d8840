// Printing to standard output.
use crate::failure::fail;

// Where not all of the text could be written, standard error says why.
pub fn text(rt: &(impl Print + Eprint), t: &[u8]) {
    if let Err(error) = rt.write_all(t) {
        fail(rt, "standard output", error);
    }
}
