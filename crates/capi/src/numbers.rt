// Answers as numbers, as include/jesmovit.h has them.
ghost use Rattle.std.specs.Prelude.{◌≡◌};
ghost use Rattle.job.specs.Refusal.{number_of};
ghost use Rattle.validate.specs.Verdict.{verdict_of};
ghost use Rattle.jesmovit.specs.Outcomes.{judgement_of};
ghost use Rattle.capi.specs.Numbers.{verdict_code, judgement_code, code_numbers, refusal_numbers};
ghost use Rattle.capi.specs.Numbers.{read_numbers, compile_numbers, check_numbers, least_numbers, judge_numbers, sheet_numbers};

use compile::sizes::Sizes;
use jesmovit::{Judged, Judgement, SheetAnswer};
use job::head::Counts;
use job::refusal::Refusal;
use validate::verdict::Verdict;

// The number of a refusal, or 0, and five numbers beside it.
#[derive(Clone, Copy)]
pub struct Numbers {
    pub number: u32,
    pub values: [u64; 5],
}

// What is said of a plan: its number, and two numbers beside it.
#[derive(Clone, Copy)]
pub struct Coded {
    pub number: u64,
    pub first: u64,
    pub second: u64,
}

impl From<Verdict> for Coded {
    ghost from_gives = { λ v code. code ≡ verdict_code (verdict_of v) };

    fn from(v: Verdict) -> Coded {
        let (number, first) = match v {
            Verdict::Plan(cost) => (0, cost),
            Verdict::Blocked(i) => (1, i as u64),
            Verdict::Unfinished => (2, 0),
            Verdict::Missed => (3, 0),
        };
        Coded {
            number,
            first,
            second: 0,
        }
    }
}

impl From<Judgement> for Coded {
    ghost from_gives = { λ g code. code ≡ judgement_code (judgement_of g) };

    fn from(g: Judgement) -> Coded {
        match g {
            Judgement::Least(cost) => Coded {
                number: 4,
                first: cost,
                second: cost,
            },
            Judgement::Dearer(cost, least) => Coded {
                number: 5,
                first: cost,
                second: least,
            },
            Judgement::Other(v) => Coded::from(v),
        }
    }
}

impl From<Refusal> for Numbers {
    ghost from_gives = { λ r numbers. numbers ≡ refusal_numbers (number_of r.reason) r.place };

    fn from(r: Refusal) -> Numbers {
        Numbers {
            number: u8::from(r.reason) as u32,
            values: [r.place as u64, 0, 0, 0, 0],
        }
    }
}

// A verdict that is the whole answer.
impl From<Verdict> for Numbers {
    ghost from_gives = { λ v numbers. numbers ≡ code_numbers (verdict_code (verdict_of v)) };

    fn from(v: Verdict) -> Numbers {
        let o = Coded::from(v);
        Numbers {
            number: 0,
            values: [o.number, o.first, 0, 0, 0],
        }
    }
}

// Of reading.
impl From<Result<Counts, Refusal>> for Numbers {
    ghost from_gives = { λ a numbers. numbers ≡ read_numbers a };

    fn from(a: Result<Counts, Refusal>) -> Numbers {
        match a {
            Ok(c) => Numbers {
                number: 0,
                values: [
                    c.facts as u64,
                    c.formulas as u64,
                    c.moves as u64,
                    c.effects as u64,
                    c.program as u64,
                ],
            },
            Err(r) => Numbers::from(r),
        }
    }
}

// Of compiling.
impl From<Result<Sizes, Refusal>> for Numbers {
    ghost from_gives = { λ a numbers. numbers ≡ compile_numbers a };

    fn from(a: Result<Sizes, Refusal>) -> Numbers {
        match a {
            Ok(s) => Numbers {
                number: 0,
                values: [s.positions as u64, s.steps as u64, 0, 0, 0],
            },
            Err(r) => Numbers::from(r),
        }
    }
}

// Of a check.
impl From<Result<Verdict, Refusal>> for Numbers {
    ghost from_gives = { λ a numbers. numbers ≡ check_numbers a };

    fn from(a: Result<Verdict, Refusal>) -> Numbers {
        match a {
            Ok(v) => Numbers::from(v),
            Err(r) => Numbers::from(r),
        }
    }
}

// Of the least cost.
impl From<Result<Option<u64>, Refusal>> for Numbers {
    ghost from_gives = { λ a numbers. numbers ≡ least_numbers a };

    fn from(a: Result<Option<u64>, Refusal>) -> Numbers {
        match a {
            Ok(Some(cost)) => Numbers {
                number: 0,
                values: [6, cost, 0, 0, 0],
            },
            Ok(None) => Numbers {
                number: 0,
                values: [7, 0, 0, 0, 0],
            },
            Err(r) => Numbers::from(r),
        }
    }
}

// Of the judge.
impl From<Result<Judged, Refusal>> for Numbers {
    ghost from_gives = { λ a numbers. numbers ≡ judge_numbers a };

    fn from(a: Result<Judged, Refusal>) -> Numbers {
        match a {
            Ok(j) => {
                let s = j.sizes;
                let o = Coded::from(j.judgement);
                Numbers {
                    number: 0,
                    values: [
                        s.positions as u64,
                        s.steps as u64,
                        o.number,
                        o.first,
                        o.second,
                    ],
                }
            }
            Err(r) => Numbers::from(r),
        }
    }
}

// Of the sheet.
impl From<Result<SheetAnswer, Refusal>> for Numbers {
    ghost from_gives = { λ a numbers. numbers ≡ sheet_numbers a };

    fn from(a: Result<SheetAnswer, Refusal>) -> Numbers {
        match a {
            Ok(SheetAnswer::Laid(bytes)) => Numbers {
                number: 0,
                values: [8, bytes as u64, 0, 0, 0],
            },
            Ok(SheetAnswer::Said(v)) => Numbers::from(v),
            Err(r) => Numbers::from(r),
        }
    }
}

// Writes the values, and gives the number back.
pub fn hand_out(n: Numbers, answer: &mut [u64; 5]) -> u32
    ensures { (result ≡ n.number) × (answer.new ≡ n.values) }
{
    let values = n.values;
    *answer = values;
    n.number
}
