// A plan text laid out as a sheet, by the class costs of a costs text where one is given.
ghost use Rattle.std.specs.Prelude.{◌≡◌, ◌≤◌, length};
ghost use Rattle.limits.specs.Limits.{most_entries};
ghost use Rattle.job.specs.StoredTask.{stored_job, stored_task};
ghost use Rattle.domain.specs.Domain.{domain_at};
ghost use Rattle.domain.specs.Entries.{EntriesBelow};
ghost use Rattle.validate.specs.Verdict.{verdict_of};
ghost use Rattle.load.specs.Refusals.{passed, list_need};
ghost use Rattle.load.specs.View.{view_of};
ghost use Rattle.jesmovit.specs.Outcomes.{sheet_outcome};
ghost use Rattle.jesmovit.specs.Checking.{Says};
ghost use Rattle.jesmovit.specs.Writing.{Writes, bytes_for, SheetIs, Sheets};

use crate::preparing::compiled;
use arrayvec::ArrayVec;
use job::refusal::Refusal;
use job::rows::STORE;
use limits::LIST;
use load::loaded::LoadedJob;
use load::request::{Given, Request, Sort};
use validate::verdict::Verdict;

// How many bytes the sheet of a plan has; or the verdict on what is no plan.
#[derive(Clone, Copy)]
pub enum SheetAnswer {
    Laid(usize),
    Said(Verdict),
}

// How many bytes the output needs after the verdict on so many moves: none for what is no plan.
fn bytes_needed(verdict: Verdict, count: usize) -> usize
    requires { count ≤ most_entries }
    ensures { result ≡ bytes_for (verdict_of verdict) count }
{
    let size = layout::sheet::sheet_size(count);
    match verdict {
        Verdict::Plan(_) => size,
        _ => 0,
    }
}

// The sheet of a list of moves, if the verdict on them is that they are a plan, and the output has
// room. The list is filled once nothing is refused any more.
fn lay_out(
    job: &LoadedJob,
    verdict: Verdict,
    plan: &[u16],
    list: &mut [u16],
    out: &mut [u8],
) -> Result<SheetAnswer, Refusal>
    requires says { Says Sort.Moves (view_of (record { task = stored_task job.now.task; entries = plan.now })) (verdict_of verdict) }
    requires room { list_need (stored_job job.now.task) ≤ length list.old }
    requires entries_below { EntriesBelow plan.now (domain_at job.now.task).moves }
    ensures { Writes SheetIs (record { list = list.old; output = out.old })
        (passed (view_of (record { task = stored_task job.now.task; entries = plan.now })))
        (sheet_outcome result) (record { list = list.new; output = out.new }) }
{
    let need = bytes_needed(verdict, plan.len());
    if out.len() < need {
        return Err(load::room::too_short(need));
    }
    compile::program::compile(&job.task, list);
    let Verdict::Plan(_) = verdict else {
        return Ok(SheetAnswer::Said(verdict));
    };
    layout::sheet::put_sheet(&job.task, plan, out);
    Ok(SheetAnswer::Laid(need))
}

// Lays out a list of moves; or says why the texts, the list or the output are refused. Unless they
// are, the list's front then holds the steps of the compiled job, four numbers each; for a plan, the
// output's front then holds the sheet.
pub fn sheet(
    text: &[u8],
    plan: &[u8],
    costs: &[u8],
    given: Given,
    list: &mut [u16],
    out: &mut [u8],
) -> Result<SheetAnswer, Refusal>
    ensures { Sheets (record { job = text.now; plan = plan.now; costs = costs.now; given = given })
        (record { list = list.old; output = out.old }) result (record { list = list.new; output = out.new }) }
{
    let mut rows = [0u16; STORE];
    let mut entries = ArrayVec::new();
    let request = Request {
        given,
        plan: Some(Sort::Moves),
        places: list.len(),
        cells: None,
    };
    let loaded = load::loading::load(request, text, plan, costs, &mut rows, &mut entries);
    let Ok(offer) = loaded else {
        return Err(loaded.unwrap_err());
    };
    // The steps stand in an array of their own, so that the list may still hold what it held.
    let mut steps = [0u16; LIST];
    compile::program::compile(&offer.job.task, &mut steps);
    let job = compiled(&offer.job, &steps);
    let verdict = validate::moves::check_moves(&job, offer.entries);
    lay_out(&offer.job, verdict, offer.entries, list, out)
}
