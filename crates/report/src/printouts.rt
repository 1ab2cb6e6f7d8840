// What each program prints.
ghost use Rattle.std.specs.Prelude.{◌≡◌, ◌++◌, ◌+◌, ◌*◌, ◌≤◌, length};
ghost use Rattle.arrayvec.specs.ArrayString.{array_string_len};
ghost use Rattle.limits.specs.Limits.{most_steps};
ghost use Rattle.jesmovit.specs.Outcomes.{judgement_of};
ghost use Rattle.report.specs.Room.{room};
ghost use Rattle.report.specs.Printout.{cost_lines, judgement_lines, compiled_lines, count_lines};
ghost use Rattle.report.specs.Printout.{judge_printout, least_printout, compile_printout, check_printout, read_printout, sheet_printout};

use crate::lines;
use crate::room::Printout;
use compile::sizes::Sizes;
use jesmovit::{Judged, Judgement, SheetAnswer};
use job::head::Counts;
use job::refusal::Refusal;
use validate::verdict::Verdict;

#[tactic(auto, unfolding(text::specs::Bytes::bytes))]
fn compiled(out: &mut Printout, sizes: Sizes, list: &[u16])
    requires room { array_string_len out.old + 88192 ≤ room }
    requires few { length list.now ≤ most_steps * 4 }
    ensures text { out.new.bytes ≡ out.old.bytes ++ compiled_lines sizes.positions sizes.steps list.now }
    ensures short { array_string_len out.new ≤ array_string_len out.old + 88192 }
{
    lines::line(out, "positions", &[sizes.positions as u64]);
    lines::line(out, "steps", &[sizes.steps as u64]);
    let numbers = &list[..list.len().min((sizes.steps as usize) * 4)];
    lines::steps(out, numbers);
}

#[tactic(auto, unfolding(text::specs::Bytes::bytes))]
fn costs(out: &mut Printout, cost: u64, least: u64)
    requires { array_string_len out.old + 64 ≤ room }
    ensures text { out.new.bytes ≡ out.old.bytes ++ cost_lines cost least }
    ensures short { array_string_len out.new ≤ array_string_len out.old + 64 }
{
    lines::line(out, "cost", &[cost]);
    lines::line(out, "least", &[least]);
}

#[tactic(auto, unfolding(text::specs::Bytes::bytes))]
fn judgement(out: &mut Printout, j: Judgement)
    requires { array_string_len out.old + 128 ≤ room }
    ensures { out.new.bytes ≡ out.old.bytes ++ judgement_lines (judgement_of j) }
{
    match j {
        Judgement::Least(cost) => {
            costs(out, cost, cost);
            out.push_str("answer=least\n");
        }
        Judgement::Dearer(cost, least) => {
            costs(out, cost, least);
            out.push_str("answer=dearer\n");
        }
        Judgement::Other(v) => lines::verdict(out, v),
    }
}

// What judging prints.
pub fn judge(answer: Result<Judged, Refusal>, list: &[u16], out: &mut Printout)
    requires { length list.now ≤ most_steps * 4 }
    ensures { out.new.bytes ≡ judge_printout answer list.now }
{
    out.clear();
    match answer {
        Ok(judged) => {
            compiled(out, judged.sizes, list);
            judgement(out, judged.judgement);
        }
        Err(r) => lines::refusal(out, r),
    }
}

// What the least cost prints.
#[tactic(auto, unfolding(text::specs::Bytes::bytes))]
pub fn least_cost(answer: Result<Option<u64>, Refusal>, out: &mut Printout)
    ensures { out.new.bytes ≡ least_printout answer }
{
    out.clear();
    match answer {
        Ok(Some(cost)) => lines::line(out, "least", &[cost]),
        Ok(None) => out.push_str("answer=none\n"),
        Err(r) => lines::refusal(out, r),
    }
}

// What compiling prints.
pub fn compile(answer: Result<Sizes, Refusal>, list: &[u16], out: &mut Printout)
    requires { length list.now ≤ most_steps * 4 }
    ensures { out.new.bytes ≡ compile_printout answer list.now }
{
    out.clear();
    match answer {
        Ok(sizes) => compiled(out, sizes, list),
        Err(r) => lines::refusal(out, r),
    }
}

// What a check prints.
pub fn check(answer: Result<Verdict, Refusal>, out: &mut Printout)
    ensures { out.new.bytes ≡ check_printout answer }
{
    out.clear();
    match answer {
        Ok(v) => lines::verdict(out, v),
        Err(r) => lines::refusal(out, r),
    }
}

#[tactic(auto, unfolding(text::specs::Bytes::bytes))]
fn counts(out: &mut Printout, c: Counts)
    requires { array_string_len out.old + 192 ≤ room }
    ensures { out.new.bytes ≡ out.old.bytes ++ count_lines c }
{
    lines::line(out, "facts", &[c.facts as u64]);
    lines::line(out, "formulas", &[c.formulas as u64]);
    lines::line(out, "moves", &[c.moves as u64]);
    lines::line(out, "effects", &[c.effects as u64]);
    lines::line(out, "objects", &[c.objects as u64]);
    lines::line(out, "program", &[c.program as u64]);
}

// What reading a job prints.
pub fn read(answer: Result<Counts, Refusal>, out: &mut Printout)
    ensures { out.new.bytes ≡ read_printout answer }
{
    out.clear();
    match answer {
        Ok(c) => counts(out, c),
        Err(r) => lines::refusal(out, r),
    }
}

// What laying out prints: the sheet that stands in the output already, or what is said instead.
pub fn sheet<'a>(
    answer: Result<SheetAnswer, Refusal>,
    output: &'a [u8],
    said: &'a mut Printout,
) -> &'a [u8]
    ensures { result.now ≡ sheet_printout answer output.now }
{
    said.clear();
    match answer {
        Ok(SheetAnswer::Laid(bytes)) => return &output[..bytes.min(output.len())],
        Ok(SheetAnswer::Said(v)) => lines::verdict(said, v),
        Err(r) => lines::refusal(said, r),
    }
    said.as_str().as_bytes()
}
