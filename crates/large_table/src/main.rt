// large_table JOB [COSTS]: what least_cost JOB [COSTS] prints, with a cost table of 4 MB, which has
// room for twelve facts and 128 positions.
#![tactic(auto)]

use console::files::TEXT;
use console::texts::read_texts;
use limits::LIST;
use load::request::Given;

// How many numbers the cost table holds.
const TABLE: usize = limits::STATES * 128;

fn print_cost(rt: &HostRuntime, text: &[u8], costs: &[u8], given: Given, table: &mut [u64]) {
    let mut list = [0u16; LIST];
    let answer = jesmovit::least_cost(text, costs, given, &mut list, table);
    let mut printed = report::Printout::new();
    report::least_cost(answer, &mut printed);
    console::print::text(rt, printed.as_str().as_bytes());
}

fn print_cost_of(rt: &HostRuntime, text: &[u8], costs: &[u8], given: Given) {
    let mut table = [0u64; TABLE];
    print_cost(rt, text, costs, given, &mut table);
}

fn main(rt: HostRuntime) {
    let mut job = [0u8; TEXT];
    let mut costs = [0u8; TEXT];
    if let Some(texts) = read_texts(&rt, &mut job, None, &mut costs) {
        let given = Given {
            costs: texts.costs.is_some(),
        };
        let costs = texts.costs.unwrap_or(&[]);
        print_cost_of(&rt, texts.job, costs, given);
    }
}
