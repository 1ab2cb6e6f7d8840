// check_moves JOB PLAN [COSTS]: the verdict on a list of moves against the program of the job, each
// text in the file that its argument names (job.txt and plan.txt without one), or the refusal.
// Without COSTS, or with `-`, the house's class costs hold.
#![tactic(auto)]

use console::files::TEXT;
use console::texts::read_texts;
use limits::LIST;
use load::request::Given;

fn main(rt: HostRuntime) {
    let mut job = [0u8; TEXT];
    let mut plan = [0u8; TEXT];
    let mut costs = [0u8; TEXT];
    let mut list = [0u16; LIST];
    if let Some(texts) = read_texts(&rt, &mut job, Some(&mut plan), &mut costs) {
        let given = Given {
            costs: texts.costs.is_some(),
        };
        let costs = texts.costs.unwrap_or(&[]);
        let answer = jesmovit::check_moves(texts.job, texts.plan, costs, given, &mut list);
        let mut printed = report::Printout::new();
        report::check(answer, &mut printed);
        console::print::text(&rt, printed.as_str().as_bytes());
    }
}
