// judge JOB PLAN [COSTS]: the compiled job, and what the list of moves is among the plans that the
// job's program allows, each text in the file that its argument names (job.txt and plan.txt without
// one), or the refusal. Without COSTS, or with `-`, the house's class costs hold.
#![tactic(auto)]

use console::files::TEXT;
use console::texts::read_texts;
use limits::{LIST, PROGRAM_TABLE};
use load::request::Given;

fn main(rt: HostRuntime) {
    let mut job = [0u8; TEXT];
    let mut plan = [0u8; TEXT];
    let mut costs = [0u8; TEXT];
    let mut list = [0u16; LIST];
    let mut table = [0u64; PROGRAM_TABLE];
    if let Some(texts) = read_texts(&rt, &mut job, Some(&mut plan), &mut costs) {
        let given = Given {
            costs: texts.costs.is_some(),
        };
        let costs = texts.costs.unwrap_or(&[]);
        let answer = jesmovit::judge(texts.job, texts.plan, costs, given, &mut list, &mut table);
        let mut printed = report::Printout::new();
        report::judge(answer, &list, &mut printed);
        console::print::text(&rt, printed.as_str().as_bytes());
    }
}
