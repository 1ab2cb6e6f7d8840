// Lines, appended to what is printed so far. They are no impl of Display: a clause says nothing of a
// `fmt` that answers an error, and nothing here can answer one.
ghost use Rattle.std.specs.Prelude.{◌≡◌, ◌++◌, ◌+◌, ◌*◌, ◌/◌, ◌≤◌, ◌<◌, length};
ghost use Rattle.arrayvec.specs.ArrayString.{array_string_len};
ghost use Rattle.text.specs.Written.{decimal, line_text};
ghost use Rattle.job.specs.Refusal.{number_of};
ghost use Rattle.validate.specs.Verdict.{verdict_of};
ghost use Rattle.report.specs.Room.{room};
ghost use Rattle.report.specs.Printout.{step_lines, refused_line, verdict_lines};

use crate::room::Printout;
use job::refusal::Refusal;
use validate::verdict::Verdict;

#[tactic(auto, using(text::proofs::PrintedDecimal::printed_decimal))]
fn number(out: &mut Printout, n: u64)
    requires { array_string_len out.old + 20 ≤ room }
    ensures text { out.new.bytes ≡ out.old.bytes ++ decimal n }
    ensures short { array_string_len out.new ≤ array_string_len out.old + 20 }
{
    let mut buffer = itoa::Buffer::new();
    out.push_str(buffer.format(n));
}

// A key and its numbers, of which there is one at the least.
pub(crate) fn line(out: &mut Printout, key: &str, numbers: &[u64])
    requires some { 0 < length numbers.now }
    requires room { array_string_len out.old + (length key.now + 1 + length numbers.now * 21) ≤ room }
    ensures text { out.new.bytes ≡ out.old.bytes ++ line_text key.now numbers.now }
    ensures short { array_string_len out.new ≤ array_string_len out.old + (length key.now + 1 + length numbers.now * 21) }
{
    out.push_str(key);
    out.push_str("=");
    let [first, others @ ..] = numbers else {
        unreachable!();
    };
    number(out, *first);
    for &n in others {
        out.push_str(",");
        number(out, n);
    }
    out.push_str("\n");
}

// A line for each four numbers of a list.
pub(crate) fn steps(out: &mut Printout, list: &[u16])
    requires { array_string_len out.old + length list.now / 4 * 86 ≤ room }
    ensures text { out.new.bytes ≡ out.old.bytes ++ step_lines list.now }
    ensures short { array_string_len out.new ≤ array_string_len out.old + length list.now / 4 * 86 }
{
    let (all, _) = list.as_chunks::<4>();
    for &[kind, from, to, arg] in all {
        line(out, "s", &[kind as u64, from as u64, to as u64, arg as u64]);
    }
}

#[tactic(auto, unfolding(text::specs::Bytes::bytes))]
pub(crate) fn refusal(out: &mut Printout, r: Refusal)
    requires { array_string_len out.old + 64 ≤ room }
    ensures { out.new.bytes ≡ out.old.bytes ++ refused_line (number_of r.reason) r.place }
{
    let reason = u8::from(r.reason);
    out.push_str("refused=");
    number(out, reason as u64);
    out.push_str(","); // then the place
    number(out, r.place as u64);
    out.push_str("\n");
}

#[tactic(auto, unfolding(text::specs::Bytes::bytes, text::specs::Written::written))]
pub(crate) fn verdict(out: &mut Printout, v: Verdict)
    requires { array_string_len out.old + 64 ≤ room }
    ensures { out.new.bytes ≡ out.old.bytes ++ verdict_lines (verdict_of v) }
{
    match v {
        Verdict::Plan(cost) => {
            line(out, "cost", &[cost]);
            out.push_str("answer=plan\n");
        }
        Verdict::Blocked(i) => {
            out.push_str("answer=blocked,");
            number(out, i as u64);
            out.push_str("\n");
        }
        Verdict::Unfinished => out.push_str("answer=unfinished\n"),
        Verdict::Missed => out.push_str("answer=missed\n"),
    }
}
