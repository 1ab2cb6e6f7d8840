// The rows of a stored job, read by name.
ghost use Rattle.std.specs.Prelude.{◌≡◌, ℕ, ◌+◌, ◌<◌, List, [], get_or, refl};
ghost use Rattle.job.specs.Job.{Job, formula_of, effect_of, row_of, formula_at, move_at, effect_at, program_row_at};
ghost use Rattle.job.specs.Store.{formulas_from, moves_from, effects_from, program_from, all_rows, rows_from, stored_move, job_of, formula_in, move_in, effect_in, row_in};
ghost use Rattle.job.specs.Stored.{Limited, Stored};
ghost use Rattle.job.specs.declared.head.Counts.{Counts};
ghost use Rattle.job.specs.declared.head.Head.{Head};
ghost use Rattle.std.proofs.Common.{arith};

use crate::head::Head;
use crate::rows::{
    EFFECT_COUNT, EFFECTS_FROM, FIRST_EFFECT, MOVES_FROM, PROGRAM_FROM, WIDTH, row_at,
};

// A formula: its kind, and what it refers to.
#[derive(Clone, Copy)]
pub struct Formula {
    pub kind: u16,
    pub a: u16,
    pub b: u16,
}

// A move: its precondition and cost class, how many effects it has, the formula that says when it
// costs a second class too, that class, and the number of its first effect.
#[derive(Clone, Copy)]
pub struct Move {
    pub pre: u16,
    pub class: u16,
    pub effects: u16,
    pub when: u16,
    pub second: u16,
    pub first: u16,
}

// An effect: its condition, the fact that it changes, and the value that it gives it.
#[derive(Clone, Copy)]
pub struct Effect {
    pub cond: u16,
    pub fact: u16,
    pub value: u16,
}

// A row of the program: its kind, and what it refers to.
#[derive(Clone, Copy)]
pub struct ProgramRow {
    pub kind: u16,
    pub a: u16,
    pub b: u16,
    pub c: u16,
}

// A sort of rows: where its rows begin, how many a job has, and what the numbers of one say.
pub trait StoredRow: Copy {
    ghost first: { ℕ };

    ghost count: { Counts → ℕ };

    ghost said: { List ℕ → Self };

    ghost rows: { Job → List Self };

    fn said(numbers: [u16; WIDTH]) -> Self
        ensures { result ≡ said numbers };

    fn first() -> u16
        ensures { result ≡ first };

    ghost room: { (c : Counts) (i : ℕ) → Limited c → i < count c → first + i < all_rows };

    ghost stands: { (h : Head) (l : List ℕ) → rows (job_of h l) ≡ rows_from said l first (count h.counts) };
}

impl StoredRow for Formula {
    ghost first = { formulas_from };

    ghost count = { λ c. c.formulas };

    ghost said = { formula_of };

    ghost rows = { λ j. j.formulas };

    ghost room = { λ c i w h. Prim.omega (arith, w.formulas) };

    ghost stands = { λ h l. refl };

    fn said(numbers: [u16; WIDTH]) -> Formula {
        Formula {
            kind: numbers[0],
            a: numbers[1],
            b: numbers[2],
        }
    }

    fn first() -> u16 {
        0
    }
}

impl StoredRow for Move {
    ghost first = { moves_from };

    ghost count = { λ c. c.moves };

    ghost said = { stored_move };

    ghost rows = { λ j. j.moves };

    ghost room = { λ c i w h. Prim.omega (arith, w.moves) };

    ghost stands = { λ h l. refl };

    fn said(numbers: [u16; WIDTH]) -> Move {
        Move {
            pre: numbers[0],
            class: numbers[1],
            effects: numbers[EFFECT_COUNT],
            when: numbers[3],
            second: numbers[4],
            first: numbers[FIRST_EFFECT],
        }
    }

    fn first() -> u16 {
        MOVES_FROM
    }
}

impl StoredRow for Effect {
    ghost first = { effects_from };

    ghost count = { λ c. c.effects };

    ghost said = { effect_of };

    ghost rows = { λ j. j.effects };

    ghost room = { λ c i w h. Prim.omega (arith, w.effects) };

    ghost stands = { λ h l. refl };

    fn said(numbers: [u16; WIDTH]) -> Effect {
        Effect {
            cond: numbers[0],
            fact: numbers[1],
            value: numbers[2],
        }
    }

    fn first() -> u16 {
        EFFECTS_FROM
    }
}

impl StoredRow for ProgramRow {
    ghost first = { program_from };

    ghost count = { λ c. c.program };

    ghost said = { row_of };

    ghost rows = { λ j. j.program };

    ghost room = { λ c i w h. Prim.omega (arith, w.program) };

    ghost stands = { λ h l. refl };

    fn said(numbers: [u16; WIDTH]) -> ProgramRow {
        ProgramRow {
            kind: numbers[0],
            a: numbers[1],
            b: numbers[2],
            c: numbers[3],
        }
    }

    fn first() -> u16 {
        PROGRAM_FROM
    }
}

// Row i of its sort.
pub fn stored_row_at<R: StoredRow>(head: Head, rows: &[u16], i: u16) -> R
    requires { Stored head rows.now × (i < R.count head.counts) }
    ensures { result ≡ get_or (R.rows (job_of head rows.now)) i (R.said []) }
{
    R::said(row_at(rows, R::first() + i))
}

pub fn formula_at(head: Head, rows: &[u16], i: u16) -> Formula
    requires { Stored head rows.now × (i < head.counts.formulas) }
    ensures { formula_in result ≡ formula_at (job_of head rows.now) i }
{
    stored_row_at(head, rows, i)
}

pub fn move_at(head: Head, rows: &[u16], i: u16) -> Move
    requires { Stored head rows.now × (i < head.counts.moves) }
    ensures { move_in result ≡ move_at (job_of head rows.now) i }
{
    stored_row_at(head, rows, i)
}

pub fn effect_at(head: Head, rows: &[u16], i: u16) -> Effect
    requires { Stored head rows.now × (i < head.counts.effects) }
    ensures { effect_in result ≡ effect_at (job_of head rows.now) i }
{
    stored_row_at(head, rows, i)
}

pub fn program_row_at(head: Head, rows: &[u16], i: u16) -> ProgramRow
    requires { Stored head rows.now × (i < head.counts.program) }
    ensures { row_in result ≡ program_row_at (job_of head rows.now) i }
{
    stored_row_at(head, rows, i)
}
