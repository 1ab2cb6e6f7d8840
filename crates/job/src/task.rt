// A stored task: a job's head, and the list in which its rows and class costs are stored.
ghost use Rattle.job.specs.Props.{stored_props};
ghost use Rattle.job.specs.Stored.{Stored};

use crate::head::Head;

#[derive(Clone, Copy)]
pub struct Task<'a> {
    pub head: Head,
    pub rows: &'a [u16],
    pub ghost stored: { Stored head rows.now } by { Prim.hlevel stored_props },
}
