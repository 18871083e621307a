// The family `mended`: the twins that are right, by the name of their domain; and the same `at` a size of numbers.
use crate::answer::Answer;
use crate::answer::NotAnswered::{self, NotUnderstood};
use crate::names::{Name, name_at};
use whole::Size;

// The answer to what stands after `mended`.
pub(crate) fn answer(line: &[u8], at: usize, size: Size) -> Result<Answer, NotAnswered> {
    let (domain, next) = name_at(line, at).ok_or(NotUnderstood)?;
    match domain {
        Name::Congruence => crate::congruences::mended_answer(line, next, size),
        Name::Interval => crate::intervals::mended_answer(line, next, size),
        Name::Sign => crate::signs::mended_answer(line, next),
        _ => Err(NotUnderstood),
    }
}

// After `at` and a size: `mended interval` or `mended congruence`. A sign has no size.
fn at_size(line: &[u8], at: usize, size: Size) -> Result<Answer, NotAnswered> {
    let (family, next) = name_at(line, at).ok_or(NotUnderstood)?;
    let (domain, _) = name_at(line, next).ok_or(NotUnderstood)?;
    match (family, domain) {
        (Name::Mended, Name::Interval | Name::Congruence) => answer(line, next, size),
        _ => Err(NotUnderstood),
    }
}

// The answer to what stands after `at`.
pub(crate) fn sized(line: &[u8], at: usize) -> Result<Answer, NotAnswered> {
    match crate::take::number(line, at) {
        Some((16, next)) => at_size(line, next, Size::B16),
        Some((32, next)) => at_size(line, next, Size::B32),
        Some((64, next)) => at_size(line, next, Size::B64),
        _ => Err(NotUnderstood),
    }
}
