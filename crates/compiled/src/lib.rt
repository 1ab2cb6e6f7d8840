// A compiled job as data: its steps by the positions that they start from, and where a step leads.
#![tactic(auto)]

ghost use Rattle.std.specs.Prelude.{◌≡◌};
ghost use Rattle.domain.specs.Domain.{domain_at};
ghost use Rattle.compiled.specs.Props.{ready_props};
ghost use Rattle.compiled.specs.Ready.{Ready};

pub mod explored;
pub mod index;
pub mod steps;

use job::task::Task;

// A stored task and the steps of its program: the list holds them and nothing else, four numbers
// each, and the last of so many positions is the final one; and how many states the task has.
#[derive(Clone, Copy)]
pub struct CompiledJob<'a> {
    pub task: Task<'a>,
    pub list: &'a [u16],
    pub positions: u16,
    pub states: u16,
    pub ghost ready: { Ready task.head task.rows.now list.now positions } by { Prim.hlevel ready_props },
    pub ghost counted: { states ≡ (domain_at task).states },
}
