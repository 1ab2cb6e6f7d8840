// sheet JOB PLAN [COSTS]: the pages of a plan, the verdict on a list of moves that is none, or the
// refusal; each text in the file that its argument names (job.txt and plan.txt without one). Without
// COSTS, or with `-`, the house's class costs hold.
#![tactic(auto)]

use console::files::TEXT;
use console::texts::read_texts;
use layout::sheet::SHEET;
use limits::LIST;
use load::request::Given;

fn main(rt: HostRuntime) {
    let mut job = [0u8; TEXT];
    let mut plan = [0u8; TEXT];
    let mut costs = [0u8; TEXT];
    let mut list = [0u16; LIST];
    let mut out = [0u8; SHEET];
    if let Some(texts) = read_texts(&rt, &mut job, Some(&mut plan), &mut costs) {
        let given = Given {
            costs: texts.costs.is_some(),
        };
        let costs = texts.costs.unwrap_or(&[]);
        let answer = jesmovit::sheet(texts.job, texts.plan, costs, given, &mut list, &mut out);
        let mut said = report::Printout::new();
        console::print::text(&rt, report::sheet(answer, &out, &mut said));
    }
}
