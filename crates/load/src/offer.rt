// Plan texts, read for a task: reason 5.
ghost use Rattle.std.specs.Prelude.{◌≡◌};
ghost use Rattle.job.specs.StoredTask.{stored_job, stored_task};
ghost use Rattle.lists.specs.PlanText.{read_plan};
ghost use Rattle.lists.specs.Listed.{listed_as};
ghost use Rattle.load.specs.Refusals.{key_for, bound_for, plan_in};
ghost use Rattle.load.specs.Loaded.{checked_as};

use crate::loaded::LoadedJob;
use crate::request::Sort;
use arrayvec::ArrayVec;
use job::refusal::{Reason, Refusal};
use limits::ENTRIES;

// The entries of a plan for a job; or at which line its text is refused.
fn read_plan(
    sort: Sort,
    plan: &[u8],
    job: &LoadedJob,
    entries: &mut ArrayVec<u16, ENTRIES>,
) -> Result<(), usize>
    ensures { listed_as result entries.new ≡ read_plan (key_for sort) (bound_for sort (stored_job job.now.task)) plan.now }
{
    match sort {
        Sort::Moves => {
            let moves = domain::moves::move_count(&job.task);
            lists::plan_text::read_plan(plan, b"m", moves, entries)
        }
        Sort::Steps => lists::plan_text::read_plan(plan, b"t", job.sizes.steps, entries),
    }
}

// Reason 5, for a job and its costs that were loaded: the entries of the plan text, none where there
// is none.
pub fn load_plan(
    plan: Option<Sort>,
    text: &[u8],
    job: &LoadedJob,
    entries: &mut ArrayVec<u16, ENTRIES>,
) -> Result<(), Refusal>
    ensures { checked_as (λ _. record { task = stored_task job.now.task; entries = entries.new.items }) result
        ≡ plan_in plan text.now (stored_task job.now.task) }
{
    let Some(sort) = plan else {
        entries.clear();
        return Ok(());
    };
    read_plan(sort, text, job, entries).map_err(|line| Refusal {
        reason: Reason::Plan,
        place: line,
    })
}
