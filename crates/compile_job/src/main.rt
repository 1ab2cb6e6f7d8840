// compile_job JOB: the positions and steps of the compiled job in the file that the argument names
// (job.txt without one), or its refusal.
#![tactic(auto)]

use console::files::TEXT;
use limits::LIST;

fn main(rt: HostRuntime) {
    let mut text = [0u8; TEXT];
    let mut list = [0u16; LIST];
    if let Some(job) = console::arguments::read_argument(&rt, 1, "job.txt", &mut text) {
        let answer = jesmovit::compile(job, &mut list);
        let mut printed = report::Printout::new();
        report::compile(answer, &list, &mut printed);
        console::print::text(&rt, printed.as_str().as_bytes());
    }
}
