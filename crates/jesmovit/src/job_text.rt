// A job text read.
ghost use Rattle.jesmovit.specs.JobText.{Reads};

use job::head::Counts;
use job::refusal::Refusal;
use job::rows::STORE;

// How many facts, objects and rows of each sort the job of any bytes has; or why they are no job
// text.
pub fn read_job(text: &[u8]) -> Result<Counts, Refusal>
    ensures { Reads text.now result }
{
    let mut rows = [0u16; STORE];
    let answer = reader::reading::read_job(text, &mut rows);
    let Ok(read) = answer else {
        return Err(answer.unwrap_err());
    };
    Ok(read.head.counts)
}
