// least_cost JOB [COSTS]: the least cost of all plans that the program of the job allows, or that
// there is none, each text in the file that its argument names (job.txt without one), or the
// refusal. Without COSTS, or with `-`, the house's class costs hold.
#![tactic(auto)]

use console::files::TEXT;
use console::texts::read_texts;
use limits::{LIST, PROGRAM_TABLE};
use load::request::Given;

fn main(rt: HostRuntime) {
    let mut job = [0u8; TEXT];
    let mut costs = [0u8; TEXT];
    let mut list = [0u16; LIST];
    let mut table = [0u64; PROGRAM_TABLE];
    if let Some(texts) = read_texts(&rt, &mut job, None, &mut costs) {
        let given = Given {
            costs: texts.costs.is_some(),
        };
        let costs = texts.costs.unwrap_or(&[]);
        let answer = jesmovit::least_cost(texts.job, costs, given, &mut list, &mut table);
        let mut printed = report::Printout::new();
        report::least_cost(answer, &mut printed);
        console::print::text(&rt, printed.as_str().as_bytes());
    }
}
