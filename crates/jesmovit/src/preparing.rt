// What the operations begin with that refuse nothing later.
ghost use Rattle.std.specs.Prelude.{◌≡◌, length};
ghost use Rattle.job.specs.Store.{store_size};
ghost use Rattle.job.specs.StoredTask.{stored_job};
ghost use Rattle.jesmovit.specs.Compiling.{Prepares, FrontHolds};

use arrayvec::ArrayVec;
use compiled::CompiledJob;
use job::refusal::Refusal;
use limits::ENTRIES;
use load::loaded::{LoadedJob, LoadedOffer};
use load::request::Request;

// Loads the texts and, unless they, the list or the table are refused, writes the steps of the
// compiled job over the front of the list, four numbers each.
pub(crate) fn prepare<'a, 'e>(
    request: Request,
    text: &[u8],
    plan: &[u8],
    costs: &[u8],
    rows: &'a mut [u16],
    entries: &'e mut ArrayVec<u16, ENTRIES>,
    list: &mut [u16],
) -> Result<LoadedOffer<'a, 'e>, Refusal>
    requires { (length rows.old ≡ store_size) × (request.places ≡ length list.old) }
    ensures { Prepares (record { request = request; job = text.now; plan = plan.now; costs = costs.now }) result
        list.old list.new }
{
    let offer = load::loading::load(request, text, plan, costs, rows, entries)?;
    compile::program::compile(&offer.job.task, list);
    Ok(offer)
}

// The compiled job, whose steps the front of the list holds.
pub(crate) fn compiled<'a>(job: &LoadedJob<'a>, list: &'a [u16]) -> CompiledJob<'a>
    requires { FrontHolds (stored_job job.now.task) list.now }
    ensures { (result.task ≡ job.now.task) × (result.positions ≡ job.now.sizes.positions) }
{
    CompiledJob {
        task: job.task,
        list: &list[..job.list_need()],
        positions: job.sizes.positions,
        states: job.states,
    }
}
