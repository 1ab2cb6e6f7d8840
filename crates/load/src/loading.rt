// All reasons to refuse that come before a verdict, in their order.
ghost use Rattle.std.specs.Prelude.{◌≡◌, length};
ghost use Rattle.job.specs.Store.{store_size};
ghost use Rattle.load.specs.Loaded.{Loads};

use crate::loaded::LoadedOffer;
use crate::request::Request;
use crate::room::too_short;
use arrayvec::ArrayVec;
use job::refusal::Refusal;
use limits::ENTRIES;

// Reasons 1 to 8.
pub fn load<'a, 'e>(
    request: Request,
    text: &[u8],
    plan: &[u8],
    costs: &[u8],
    rows: &'a mut [u16],
    entries: &'e mut ArrayVec<u16, ENTRIES>,
) -> Result<LoadedOffer<'a, 'e>, Refusal>
    requires { length rows.old ≡ store_size }
    ensures { Loads (record { request = request; job = text.now; plan = plan.now; costs = costs.now }) result }
{
    let job = crate::task::load_task(request.given, text, costs, rows)?;
    crate::offer::load_plan(request.plan, plan, &job, entries)?;
    let places = job.list_need();
    if request.places < places {
        return Err(too_short(places));
    }
    let need = job.table_need();
    let cells = request.cells.unwrap_or(need);
    if cells < need {
        return Err(too_short(need));
    }
    Ok(LoadedOffer {
        job,
        entries: entries.as_slice(),
    })
}
