// A job text compiled.
ghost use Rattle.jesmovit.specs.Compiling.{Compiles};

use crate::preparing::prepare;
use arrayvec::ArrayVec;
use compile::sizes::Sizes;
use job::refusal::Refusal;
use job::rows::STORE;
use load::request::{Given, Request};

// How many positions and steps the compiled job has; or why it is refused. Writes the steps of the
// job's program over the front of the list, four numbers each: kind, from, to, arg.
pub fn compile(text: &[u8], list: &mut [u16]) -> Result<Sizes, Refusal>
    ensures { Compiles text.now list.old result list.new }
{
    let mut rows = [0u16; STORE];
    let mut entries = ArrayVec::new();
    let request = Request {
        given: Given { costs: false },
        plan: None,
        places: list.len(),
        cells: None,
    };
    let prepared = prepare(request, text, &[], &[], &mut rows, &mut entries, list);
    let Ok(offer) = prepared else {
        return Err(prepared.unwrap_err());
    };
    Ok(offer.job.sizes)
}
