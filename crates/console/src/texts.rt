// The texts of a program.
ghost use Rattle.std.specs.Prelude.{◌≤◌, length, IfSome};
ghost use Rattle.console.specs.Room.{room_of};

use crate::arguments::{read_argument, read_given};
use std::env::Env;
use std::rt::Files;

// The bytes of each file, and a costs text where one is given.
#[derive(Drop)]
pub struct Texts<'a> {
    pub job: &'a [u8],
    pub plan: &'a [u8],
    pub costs: Option<&'a [u8]>,
}

// Fills a buffer from the file that argument 1 names, or from job.txt; where there is one for a plan,
// that from the file of the next argument, or from plan.txt; and one from that of the last, which may
// be left out. Without a buffer for it the plan's text is empty.
pub fn read_texts<'a, R: Files + Env + Eprint>(
    rt: &R,
    job: &'a mut [u8],
    plan: Option<&'a mut [u8]>,
    costs: &'a mut [u8],
) -> Option<Texts<'a>>
    ensures job { IfSome result (λ texts. length texts.job.now ≤ length job.old) }
    ensures plan { IfSome result (λ texts. length texts.plan.now ≤ room_of plan.entry) }
    ensures costs { IfSome result (λ texts. IfSome texts.costs (λ text. length text.now ≤ length costs.old)) }
{
    let job = read_argument(rt, 1, "job.txt", job)?;
    let (plan, last): (&[u8], usize) = match plan {
        Some(buf) => (read_argument(rt, 2, "plan.txt", buf)?, 3),
        None => (&[], 2),
    };
    let costs = read_given(rt, last, costs)?;
    Some(Texts { job, plan, costs })
}
