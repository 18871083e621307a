// The families `congruence` and `mended congruence`: a congruence is its constant and its modulus.
use crate::answer::Answer;
use crate::answer::NotAnswered::{self, NotUnderstood};
use crate::names::{Name, name_at};
use crate::take::numbers;
use congruence::{Congruence, mended, ported};
use whole::Size;

pub(crate) fn of_numbers(constant: i64, modulus: i64) -> Congruence {
    Congruence { constant, modulus }
}

// Not one with that of intervals: what they answer differs.
fn of_none(op: Name) -> Result<Answer, NotAnswered> {
    match op {
        Name::Top => Ok(Answer::Spacing(Congruence::TOP)),
        Name::Bottom => Ok(Answer::Spacing(Congruence::BOTTOM)),
        _ => Err(NotUnderstood),
    }
}

fn of_one(op: Name, x: Congruence) -> Result<Answer, NotAnswered> {
    match op {
        Name::From => Ok(Answer::Spacing(Congruence::from(x.constant, x.modulus)?)),
        Name::Singleton => Ok(Answer::Number(ported::singleton(x)?)),
        Name::LogicalNot => Ok(Answer::Spacing(ported::logical_not(x)?)),
        Name::Neg => Ok(Answer::Spacing(ported::neg(x)?)),
        _ => Err(NotUnderstood),
    }
}

// A match on the names: what the operations take and answer differs, so that a table of them is no plainer.
fn of_two(op: Name, x: Congruence, y: Congruence) -> Result<Answer, NotAnswered> {
    match op {
        Name::Join => Ok(Answer::Spacing(ported::join(x, y)?)),
        Name::Meet => Ok(Answer::Spacing(ported::meet(x, y)?)),
        Name::PartialCmp => Ok(Answer::Order(ported::partial_cmp(x, y)?)),
        Name::Widen => Ok(Answer::Spacing(ported::widen(x, y)?)),
        Name::Narrow => Ok(Answer::Spacing(ported::narrow(x, y)?)),
        Name::Add => Ok(Answer::Spacing(ported::add(x, y)?)),
        Name::Sub => Ok(Answer::Spacing(ported::sub(x, y)?)),
        Name::Mul => Ok(Answer::Spacing(ported::mul(x, y)?)),
        Name::Div => Ok(Answer::Spacing(ported::div(x, y)?)),
        Name::Disjoint => Ok(Answer::Truth(ported::disjoint(x, y)?)),
        Name::Equals => Ok(Answer::Spacing(ported::equals(x, y)?)),
        Name::LogicalAnd => Ok(Answer::Spacing(ported::logical_and(x, y)?)),
        Name::LogicalOr => Ok(Answer::Spacing(ported::logical_or(x, y)?)),
        Name::StrictCmp => Ok(Answer::Order(ported::strict_cmp(x, y)?)),
        _ => Err(NotUnderstood),
    }
}

// The answer to what stands after the family's name.
pub(crate) fn answer(line: &[u8], at: usize) -> Result<Answer, NotAnswered> {
    let (op, next) = name_at(line, at).ok_or(NotUnderstood)?;
    let mut room = [0; 4];
    let n = numbers(line, next, &mut room).ok_or(NotUnderstood)?;
    match &room[..n] {
        [] => of_none(op),
        [c, m] => of_one(op, of_numbers(*c, *m)),
        [c, m, d, n] => of_two(op, of_numbers(*c, *m), of_numbers(*d, *n)),
        _ => Err(NotUnderstood),
    }
}

fn mended_one(size: Size, op: Name, x: Congruence) -> Result<Answer, NotAnswered> {
    match op {
        Name::Neg => Ok(Answer::Spacing(mended::neg(size, x)?)),
        _ => Err(NotUnderstood),
    }
}

fn mended_two(size: Size, op: Name, x: Congruence, y: Congruence) -> Result<Answer, NotAnswered> {
    match op {
        Name::Join => Ok(Answer::Spacing(mended::join(size, x, y)?)),
        Name::Meet => Ok(Answer::Spacing(mended::meet(size, x, y)?)),
        Name::PartialCmp => Ok(Answer::Order(mended::partial_cmp(size, x, y)?)),
        Name::Widen => Ok(Answer::Spacing(mended::widen(size, x, y)?)),
        Name::Disjoint => Ok(Answer::Truth(mended::disjoint(size, x, y)?)),
        Name::Add => Ok(Answer::Spacing(mended::add(size, x, y)?)),
        Name::Sub => Ok(Answer::Spacing(mended::sub(size, x, y)?)),
        Name::Mul => Ok(Answer::Spacing(mended::mul(size, x, y)?)),
        Name::Div => Ok(Answer::Spacing(mended::div(size, x, y)?)),
        Name::Equals => Ok(Answer::Spacing(mended::equals(size, x, y)?)),
        Name::Less => Ok(Answer::Spacing(mended::less(size, x, y)?)),
        Name::Greater => Ok(Answer::Spacing(mended::greater(size, x, y)?)),
        Name::LessOrEqual => Ok(Answer::Spacing(mended::less_or_equal(size, x, y)?)),
        Name::GreaterOrEqual => Ok(Answer::Spacing(mended::greater_or_equal(size, x, y)?)),
        _ => Err(NotUnderstood),
    }
}

// The answer to what stands after `mended congruence`, at a size of numbers.
pub(crate) fn mended_answer(line: &[u8], at: usize, size: Size) -> Result<Answer, NotAnswered> {
    let (op, next) = name_at(line, at).ok_or(NotUnderstood)?;
    let mut room = [0; 4];
    let n = numbers(line, next, &mut room).ok_or(NotUnderstood)?;
    match &room[..n] {
        [c, m] => mended_one(size, op, of_numbers(*c, *m)),
        [c, m, d, n] => mended_two(size, op, of_numbers(*c, *m), of_numbers(*d, *n)),
        _ => Err(NotUnderstood),
    }
}
