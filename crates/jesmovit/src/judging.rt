// The least cost of a job text, and plan texts judged by it, by the class costs of a costs text
// where one is given.
ghost use Rattle.std.specs.Prelude.{◌≡◌, [], ◌*◌, ◌≤◌, length};
ghost use Rattle.job.specs.StoredTask.{stored_task};
ghost use Rattle.domain.specs.Domain.{domain_at};
ghost use Rattle.domain.specs.Entries.{EntriesBelow};
ghost use Rattle.load.specs.View.{view_of};
ghost use Rattle.jesmovit.specs.Outcomes.{judgement_of};
ghost use Rattle.jesmovit.specs.Judging.{CostsLeast, compared, Found, Judges};

use crate::preparing::{compiled, prepare};
use arrayvec::ArrayVec;
use compile::sizes::Sizes;
use compiled::CompiledJob;
use job::refusal::Refusal;
use job::rows::STORE;
use load::request::{Given, Request, Sort};
use validate::verdict::Verdict;

// What an offered plan is: one of least cost; one of a cost above the least, with both; or no plan,
// with the check's verdict.
#[derive(Clone, Copy)]
pub enum Judgement {
    Least(u64),
    Dearer(u64, u64),
    Other(Verdict),
}

// The sizes of the compiled job, and what the plan is.
#[derive(Clone, Copy)]
pub struct Judged {
    pub sizes: Sizes,
    pub judgement: Judgement,
}

// The least cost of all plans that the job's program allows, or none where it allows no plan of any
// length; or why the texts, the list or the table are refused. Unless they are, the list's front
// then holds the steps of the compiled job, four numbers each, and the table's front the least cost
// of reaching each state and position.
pub fn least_cost(
    text: &[u8],
    costs: &[u8],
    given: Given,
    list: &mut [u16],
    table: &mut [u64],
) -> Result<Option<u64>, Refusal>
    ensures { CostsLeast (record { job = text.now; plan = []; costs = costs.now; given = given })
        (record { list = list.old; table = table.old }) result (record { list = list.new; table = table.new }) }
{
    let mut rows = [0u16; STORE];
    let mut entries = ArrayVec::new();
    let request = Request {
        given,
        plan: None,
        places: list.len(),
        cells: Some(table.len()),
    };
    let prepared = prepare(request, text, &[], costs, &mut rows, &mut entries, list);
    let Ok(offer) = prepared else {
        return Err(prepared.unwrap_err());
    };
    let job = compiled(&offer.job, list);
    Ok(search::least::least_cost(table, &job))
}

// A plan's cost beside the least cost.
fn compare(cost: u64, least: u64) -> Judgement
    ensures { result ≡ compared cost least }
{
    if cost <= least {
        return Judgement::Least(cost);
    }
    Judgement::Dearer(cost, least)
}

// What the entries of a plan are, and the cost table filled if they are a plan.
fn judge_entries(table: &mut [u64], job: &CompiledJob, plan: &[u16]) -> Judgement
    requires entries_below { EntriesBelow plan.now (domain_at job.now.task).moves }
    requires room { (domain_at job.now.task).states * job.now.positions ≤ length table.old }
    ensures { Found (view_of (record { task = stored_task job.now.task; entries = plan.now })) (judgement_of result)
        table.old table.new }
{
    let verdict = validate::moves::check_moves(job, plan);
    let Verdict::Plan(cost) = verdict else {
        return Judgement::Other(verdict);
    };
    let least = search::least::least_cost(table, job).unwrap_or(cost);
    compare(cost, least)
}

// Judges a list of moves; or says why the texts, the list or the table are refused. Unless they are,
// the list's front then holds the steps of the compiled job, four numbers each; for a plan, the
// table's front then holds the least cost of reaching each state and position.
pub fn judge(
    text: &[u8],
    plan: &[u8],
    costs: &[u8],
    given: Given,
    list: &mut [u16],
    table: &mut [u64],
) -> Result<Judged, Refusal>
    ensures { Judges (record { job = text.now; plan = plan.now; costs = costs.now; given = given })
        (record { list = list.old; table = table.old }) result (record { list = list.new; table = table.new }) }
{
    let mut rows = [0u16; STORE];
    let mut entries = ArrayVec::new();
    let request = Request {
        given,
        plan: Some(Sort::Moves),
        places: list.len(),
        cells: Some(table.len()),
    };
    let prepared = prepare(request, text, plan, costs, &mut rows, &mut entries, list);
    let Ok(offer) = prepared else {
        return Err(prepared.unwrap_err());
    };
    let job = compiled(&offer.job, list);
    Ok(Judged {
        sizes: offer.job.sizes,
        judgement: judge_entries(table, &job, offer.entries),
    })
}
