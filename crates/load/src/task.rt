// Job and costs texts, read: reasons 1 to 3, 8, 4 and 7.
ghost use Rattle.std.specs.Prelude.{◌≡◌, IfOk, length};
ghost use Rattle.job.specs.Job.{Job};
ghost use Rattle.job.specs.ReadJob.{read};
ghost use Rattle.job.specs.Task.{CostsWithin};
ghost use Rattle.job.specs.Store.{store_size, job_of};
ghost use Rattle.job.specs.Stored.{Stored};
ghost use Rattle.job.specs.StoredTask.{stored_job, stored_task};
ghost use Rattle.load.specs.Sized.{Sized};
ghost use Rattle.load.specs.Refusals.{compilable, job_in, costs_in, task_in};
ghost use Rattle.load.specs.Loaded.{checked_as};

use crate::loaded::LoadedJob;
use crate::request::Given;
use compile::sizes::Sizes;
use job::costs::HOUSE_COSTS;
use job::head::Head;
use job::refusal::{Reason, Refusal};
use job::task::Task;
use limits::{CLASSES, POSITIONS, STEPS};

// A job that was read: its head, and the sizes of its compiled job.
#[derive(Clone, Copy)]
pub struct Measured {
    pub head: Head,
    pub sizes: Sizes,
}

// Reasons 8 and 4, for a job that was read from so many lines.
fn measure(task: &Task, lines: usize) -> Result<Sizes, Refusal>
    ensures value { checked_as (λ _. stored_job task.now) result ≡ compilable (read lines (stored_job task.now)) }
    ensures sized { IfOk result (Sized (stored_job task.now)) }
{
    if !compile::scope::program_scoped(task) {
        return Err(Refusal {
            reason: Reason::Pick,
            place: lines,
        });
    }
    let sizes = compile::sizes::measure(task);
    let large = Refusal {
        reason: Reason::Size,
        place: lines,
    };
    if POSITIONS < (sizes.positions as usize) {
        return Err(large);
    }
    if STEPS < (sizes.steps as usize) {
        return Err(large);
    }
    Ok(sizes)
}

// Reasons 1 to 3, 8 and 4; the job is then stored, with the house's class costs.
fn load_job(text: &[u8], rows: &mut [u16]) -> Result<Measured, Refusal>
    requires { length rows.old ≡ store_size }
    ensures value { checked_as (λ m. job_of m.head rows.new) result ≡ job_in text.now }
    ensures stored { IfOk result (λ m. Stored m.head rows.new) }
    ensures sized { IfOk result (λ m. Sized (job_of m.head rows.new) m.sizes) }
{
    let answer = reader::reading::read_job(text, rows);
    let Ok(read) = answer else {
        return Err(answer.unwrap_err());
    };
    let head = read.head;
    job::costs::put_house_costs(rows);
    let sizes = measure(&Task { head, rows }, read.lines)?;
    Ok(Measured { head, sizes })
}

// The class costs of the costs text, where one is given, else the house's: reason 7.
fn class_costs(given: Given, text: &[u8]) -> Result<[u16; CLASSES], Refusal>
    ensures value { (j : Job) → checked_as (λ costs. record { job = j; costs = costs }) result ≡ costs_in given text.now j }
    ensures within { IfOk result CostsWithin }
{
    if !given.costs {
        return Ok(HOUSE_COSTS);
    }
    lists::costs_text::read_costs(text).map_err(|line| Refusal {
        reason: Reason::Costs,
        place: line,
    })
}

// Reasons 1 to 3, 8, 4 and 7.
pub fn load_task<'a>(
    given: Given,
    text: &[u8],
    costs: &[u8],
    rows: &'a mut [u16],
) -> Result<LoadedJob<'a>, Refusal>
    requires { length rows.old ≡ store_size }
    ensures { checked_as (λ job. stored_task job.task) result ≡ task_in given text.now costs.now }
{
    let measured = load_job(text, rows)?;
    let costs = class_costs(given, costs)?;
    job::costs::put_costs(rows, costs);
    let task = Task {
        head: measured.head,
        rows,
    };
    Ok(LoadedJob {
        task,
        sizes: measured.sizes,
        states: domain::states::state_count(&task),
    })
}
