// Questions that need no sheet: a line is the name of a family and of an operation, and its operands; the answer is a value.
#![tactic(auto)]

pub mod answer; // answer.rt: what a question is answered, or why it isn't
mod congruences; // congruences.rt: `congruence`, and `mended congruence` at a size
mod intervals; // intervals.rt: `interval`, and `mended interval` at a size
mod mended; // mended.rt: `mended`, and `at` a size
pub mod names; // names.rt: all names, in one table
pub mod number; // number.rt: `number`
mod signs; // signs.rt: `sign` and `mended sign`
pub mod take; // take.rt: operands
mod transfers; // transfers.rt: `transfer`

use answer::Answer;
use answer::NotAnswered::{self, NotUnderstood};
use names::Name;
use whole::Size;

// The answer to a line whose first word names the family. A family is added here.
pub fn answer_to(line: &[u8]) -> Result<Answer, NotAnswered> {
    let family = text::word::word_at(line, 0);
    let next = family.len();
    match names::named(family) {
        Some(Name::Number) => number::answer(line, next),
        Some(Name::Sign) => signs::answer(line, next),
        Some(Name::Interval) => intervals::answer(line, next),
        Some(Name::Congruence) => congruences::answer(line, next),
        Some(Name::Transfer) => transfers::answer(line, next),
        Some(Name::Mended) => mended::answer(line, next, Size::B64),
        Some(Name::At) => mended::sized(line, next),
        _ => Err(NotUnderstood),
    }
}
