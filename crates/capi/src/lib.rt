// The public operations for C, and for every language that calls C: numbers and slices alone, and
// no `requires`. The crate capi_c exports them, and include/jesmovit.h says the same in C's words.
#![tactic(auto)]

ghost use Rattle.std.specs.Prelude.{[]};
ghost use Rattle.load.specs.declared.request.Sort.{Sort};
ghost use Rattle.jesmovit.specs.JobText.{Reads};
ghost use Rattle.jesmovit.specs.Compiling.{Compiles};
ghost use Rattle.jesmovit.specs.Checking.{Checks};
ghost use Rattle.jesmovit.specs.Judging.{CostsLeast, Judges};
ghost use Rattle.jesmovit.specs.Writing.{Sheets};
ghost use Rattle.capi.specs.Numbers.{read_numbers, compile_numbers, check_numbers, least_numbers, judge_numbers, sheet_numbers};
ghost use Rattle.capi.specs.Given.{given_of};
ghost use Rattle.capi.specs.Calls.{Gives};

mod given;
mod numbers;

use crate::numbers::Numbers;

// Reads a job text: its counts.
pub fn jesmovit_read_job(text: &[u8], answer: &mut [u64; 5]) -> u32
    ensures { Gives read_numbers (λ a. Reads text.now a) result answer.new }
{
    let a = jesmovit::read_job(text);
    let n = Numbers::from(a);
    numbers::hand_out(n, answer)
}

// Compiles a job's program into the list: positions and steps.
pub fn jesmovit_compile(text: &[u8], list: &mut [u16], answer: &mut [u64; 5]) -> u32
    ensures { Gives compile_numbers (λ a. Compiles text.now list.old a list.new) result answer.new }
{
    let a = jesmovit::compile(text, list);
    let n = Numbers::from(a);
    numbers::hand_out(n, answer)
}

// Checks a list of moves against a job's program: the verdict.
pub fn jesmovit_check_moves(
    text: &[u8],
    plan: &[u8],
    costs: &[u8],
    given: u32,
    list: &mut [u16],
    answer: &mut [u64; 5],
) -> u32
    ensures { Gives check_numbers (λ a. Checks Sort.Moves
        (record { job = text.now; plan = plan.now; costs = costs.now; given = given_of given })
        list.old a list.new) result answer.new }
{
    let g = given::given_in(given);
    let a = jesmovit::check_moves(text, plan, costs, g, list);
    let n = Numbers::from(a);
    numbers::hand_out(n, answer)
}

// Checks a list of steps against the compiled job: the verdict.
pub fn jesmovit_check_steps(
    text: &[u8],
    plan: &[u8],
    costs: &[u8],
    given: u32,
    list: &mut [u16],
    answer: &mut [u64; 5],
) -> u32
    ensures { Gives check_numbers (λ a. Checks Sort.Steps
        (record { job = text.now; plan = plan.now; costs = costs.now; given = given_of given })
        list.old a list.new) result answer.new }
{
    let g = given::given_in(given);
    let a = jesmovit::check_steps(text, plan, costs, g, list);
    let n = Numbers::from(a);
    numbers::hand_out(n, answer)
}

// Fills the cost table: the least cost, or that there is no plan.
pub fn jesmovit_least_cost(
    text: &[u8],
    costs: &[u8],
    given: u32,
    list: &mut [u16],
    table: &mut [u64],
    answer: &mut [u64; 5],
) -> u32
    ensures { Gives least_numbers (λ a. CostsLeast (record { job = text.now; plan = []; costs = costs.now; given = given_of given })
        (record { list = list.old; table = table.old }) a (record { list = list.new; table = table.new }))
        result answer.new }
{
    let g = given::given_in(given);
    let a = jesmovit::least_cost(text, costs, g, list, table);
    let n = Numbers::from(a);
    numbers::hand_out(n, answer)
}

// Judges a list of moves: positions, steps, and what it is among the plans that the program allows.
pub fn jesmovit_judge(
    text: &[u8],
    plan: &[u8],
    costs: &[u8],
    given: u32,
    list: &mut [u16],
    table: &mut [u64],
    answer: &mut [u64; 5],
) -> u32
    ensures { Gives judge_numbers (λ a. Judges
        (record { job = text.now; plan = plan.now; costs = costs.now; given = given_of given })
        (record { list = list.old; table = table.old }) a (record { list = list.new; table = table.new }))
        result answer.new }
{
    let g = given::given_in(given);
    let a = jesmovit::judge(text, plan, costs, g, list, table);
    let n = Numbers::from(a);
    numbers::hand_out(n, answer)
}

// Lays out a list of moves: the bytes of the sheet that the output's front then holds, or the
// verdict on what is no plan.
pub fn jesmovit_sheet(
    text: &[u8],
    plan: &[u8],
    costs: &[u8],
    given: u32,
    list: &mut [u16],
    out: &mut [u8],
    answer: &mut [u64; 5],
) -> u32
    ensures { Gives sheet_numbers (λ a. Sheets
        (record { job = text.now; plan = plan.now; costs = costs.now; given = given_of given })
        (record { list = list.old; output = out.old }) a (record { list = list.new; output = out.new }))
        result answer.new }
{
    let g = given::given_in(given);
    let a = jesmovit::sheet(text, plan, costs, g, list, out);
    let n = Numbers::from(a);
    numbers::hand_out(n, answer)
}
