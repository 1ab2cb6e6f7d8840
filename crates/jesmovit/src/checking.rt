// Plan texts checked against job texts, by the class costs of a costs text where one is given.
ghost use Rattle.job.specs.StoredTask.{stored_job, stored_task};
ghost use Rattle.domain.specs.Entries.{EntriesBelow};
ghost use Rattle.validate.specs.Verdict.{verdict_of};
ghost use Rattle.load.specs.Refusals.{bound_for};
ghost use Rattle.load.specs.View.{view_of};
ghost use Rattle.jesmovit.specs.Checking.{Says, Checks};

use crate::preparing::{compiled, prepare};
use arrayvec::ArrayVec;
use compiled::CompiledJob;
use job::refusal::Refusal;
use job::rows::STORE;
use load::request::{Given, Request, Sort};
use validate::verdict::Verdict;

// The verdict on the entries of a plan.
fn verdict(sort: Sort, job: &CompiledJob, plan: &[u16]) -> Verdict
    requires { EntriesBelow plan.now (bound_for sort (stored_job job.now.task)) }
    ensures { Says sort (view_of (record { task = stored_task job.now.task; entries = plan.now })) (verdict_of result) }
{
    match sort {
        Sort::Moves => validate::moves::check_moves(job, plan),
        Sort::Steps => validate::steps::check_steps(job, plan),
    }
}

// The verdict on a plan; or why the texts or the list are refused.
fn check(
    sort: Sort,
    text: &[u8],
    plan: &[u8],
    costs: &[u8],
    given: Given,
    list: &mut [u16],
) -> Result<Verdict, Refusal>
    ensures { Checks sort (record { job = text.now; plan = plan.now; costs = costs.now; given = given })
        list.old result list.new }
{
    let mut rows = [0u16; STORE];
    let mut entries = ArrayVec::new();
    let request = Request {
        given,
        plan: Some(sort),
        places: list.len(),
        cells: None,
    };
    let prepared = prepare(request, text, plan, costs, &mut rows, &mut entries, list);
    let Ok(offer) = prepared else {
        return Err(prepared.unwrap_err());
    };
    let job = compiled(&offer.job, list);
    Ok(verdict(sort, &job, offer.entries))
}

// The verdict on a list of moves against the job's program. Unless the texts or the list are
// refused, the list's front then holds the steps of the compiled job, four numbers each.
pub fn check_moves(
    text: &[u8],
    plan: &[u8],
    costs: &[u8],
    given: Given,
    list: &mut [u16],
) -> Result<Verdict, Refusal>
    ensures { Checks Sort.Moves (record { job = text.now; plan = plan.now; costs = costs.now; given = given })
        list.old result list.new }
{
    check(Sort::Moves, text, plan, costs, given, list)
}

// The verdict on a list of steps against the compiled job, whose steps the list's front then holds,
// unless the texts or the list are refused.
pub fn check_steps(
    text: &[u8],
    plan: &[u8],
    costs: &[u8],
    given: Given,
    list: &mut [u16],
) -> Result<Verdict, Refusal>
    ensures { Checks Sort.Steps (record { job = text.now; plan = plan.now; costs = costs.now; given = given })
        list.old result list.new }
{
    check(Sort::Steps, text, plan, costs, given, list)
}
