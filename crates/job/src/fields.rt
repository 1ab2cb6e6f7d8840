// What the numbers of a row may be: of formulas and program rows by their kind.
ghost use Rattle.std.specs.Prelude.{◌≡◌, [], ◌∷◌, ◌+◌, ◌-◌, get_or};
ghost use Rattle.job.specs.Job.{move_of, effect_of, move_numbers, effect_numbers};
ghost use Rattle.job.specs.Fields.{formula_fields, move_fields, effect_fields, row_fields, within};
ghost use Rattle.job.specs.Fields.{bound as field_bound};

use crate::head::Counts;
use crate::rows::WIDTH;
use limits::{LAST_CLASS, MOVE_EFFECTS};

// What a number refers to, or says. A base is one to which the object of a variable is added.
#[derive(Clone, Copy)]
pub enum Field {
    Unused,
    Fact,
    Formula,
    FormulaBase,
    Move,
    MoveBase,
    Row,
    Variable,
    Class,
    EffectCount,
    Value,
}

// a and b of a formula, by its kind.
const FORMULA_FIELDS: [[Field; 2]; 6] = [
    [Field::Unused, Field::Unused], // false
    [Field::Unused, Field::Unused], // true
    [Field::Fact, Field::Unused], // fact a
    [Field::Formula, Field::Unused], // not formula a
    [Field::Formula, Field::Formula], // formulas a and b
    [Field::Formula, Field::Formula], // a or b
];

// The numbers of a move.
const MOVE_FIELDS: [Field; 5] = [
    Field::Formula,
    Field::Class,
    Field::EffectCount,
    Field::Formula,
    Field::Class,
];

// The numbers of an effect.
const EFFECT_FIELDS: [Field; 3] = [Field::Formula, Field::Fact, Field::Value];

// a, b and c of a program row, by its kind.
const ROW_FIELDS: [[Field; 3]; 12] = [
    [Field::Unused, Field::Unused, Field::Unused], // nil
    [Field::Move, Field::Unused, Field::Unused], // move a
    [Field::Unused, Field::Unused, Field::Unused], // any
    [Field::Formula, Field::Unused, Field::Unused], // test a
    [Field::Row, Field::Row, Field::Unused], // a then b
    [Field::Formula, Field::Row, Field::Row], // if a then b else c
    [Field::Row, Field::Row, Field::Unused], // a or b
    [Field::Formula, Field::Row, Field::Unused], // while a do b
    [Field::Row, Field::Unused, Field::Unused], // star of a
    [Field::Row, Field::Unused, Field::Unused], // pick with body a
    [Field::MoveBase, Field::Variable, Field::Unused], // move a plus an object
    [Field::FormulaBase, Field::Variable, Field::Unused], // test of a plus an object
];

// "The sum of a and O may not exceed the count": a base is below this number.
fn base_bound(count: u16, objects: u16) -> u32
    ensures { result ≡ count + 1 - objects }
{
    (u32::from(count) + 1).saturating_sub(u32::from(objects))
}

// A field is below this number.
fn bound(field: Field, counts: Counts) -> u32
    ensures { result ≡ field_bound counts field }
{
    match field {
        Field::Unused => 1,
        Field::Fact => u32::from(counts.facts),
        Field::Formula => u32::from(counts.formulas),
        Field::FormulaBase => base_bound(counts.formulas, counts.objects),
        Field::Move => u32::from(counts.moves),
        Field::MoveBase => base_bound(counts.moves, counts.objects),
        Field::Row => u32::from(counts.program),
        Field::Variable => 65536,
        Field::Class => u32::from(LAST_CLASS) + 1,
        Field::EffectCount => u32::from(MOVE_EFFECTS) + 1,
        Field::Value => 2,
    }
}

// Whether there are as many numbers as fields, and at each field's place one below its bound.
fn within(fields: &[Field], numbers: &[u16], counts: Counts) -> bool
    ensures { result ≡ within counts fields.now numbers.now }
{
    fields.len() == numbers.len()
        && fields.iter().enumerate().all(|(i, f)| {
            numbers
                .get(i)
                .is_some_and(|n| u32::from(*n) < bound(*f, counts))
        })
}

// Whether a formula refers to facts and earlier formulas alone: its numbers are kind, a and b.
pub fn formula_right(numbers: &[u16; WIDTH], counts: Counts) -> bool
    ensures { result ≡ within counts (get_or formula_fields (get_or numbers.now 0 0) []) (get_or numbers.now 1 0 ∷ get_or numbers.now 2 0 ∷ []) }
{
    let [kind, a, b, ..] = *numbers;
    FORMULA_FIELDS
        .get(usize::from(kind))
        .is_some_and(|fields| within(fields, &[a, b], counts))
}

// Whether a move refers to formulas alone, with classes and a count of effects in their ranges.
pub fn move_right(numbers: &[u16; WIDTH], counts: Counts) -> bool
    ensures { result ≡ within counts move_fields (move_numbers (move_of 0 numbers.now)) }
{
    let [pre, class, effects, when, second, ..] = *numbers;
    within(&MOVE_FIELDS, &[pre, class, effects, when, second], counts)
}

// Whether an effect refers to a formula and a fact, with a value of 0 or 1.
pub fn effect_right(numbers: &[u16; WIDTH], counts: Counts) -> bool
    ensures { result ≡ within counts effect_fields (effect_numbers (effect_of numbers.now)) }
{
    let [cond, fact, value, ..] = *numbers;
    within(&EFFECT_FIELDS, &[cond, fact, value], counts)
}

// Whether a program row refers to formulas, moves and earlier rows alone, with any object added where
// it has a variable: its numbers are kind, a, b and c.
pub fn row_right(numbers: &[u16; WIDTH], counts: Counts) -> bool
    ensures { result ≡ within counts (get_or row_fields (get_or numbers.now 0 0) []) (get_or numbers.now 1 0 ∷ get_or numbers.now 2 0 ∷ get_or numbers.now 3 0 ∷ []) }
{
    let [kind, a, b, c, ..] = *numbers;
    ROW_FIELDS
        .get(usize::from(kind))
        .is_some_and(|fields| within(fields, &[a, b, c], counts))
}
