// read_job JOB: the counts of the job in the file that the argument names (job.txt without one), a
// line each, or its refusal.
#![tactic(auto)]

use console::files::TEXT;

fn main(rt: HostRuntime) {
    let mut text = [0u8; TEXT];
    if let Some(job) = console::arguments::read_argument(&rt, 1, "job.txt", &mut text) {
        let answer = jesmovit::read_job(job);
        let mut printed = report::Printout::new();
        report::read(answer, &mut printed);
        console::print::text(&rt, printed.as_str().as_bytes());
    }
}
