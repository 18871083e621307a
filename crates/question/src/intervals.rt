// The families `interval` and `mended interval`: an interval is the numbers of its two ends.
use crate::answer::NotAnswered::{self, NotUnderstood};
use crate::answer::{Answer, range};
use crate::names::{Name, name_at};
use crate::take::{numbers, operands};
use interval::{Interval, mended, ported};
use whole::Size;

pub(crate) fn of_ends(min: i64, max: i64) -> Interval {
    Interval { min, max }
}

fn of_none(op: Name) -> Result<Answer, NotAnswered> {
    match op {
        Name::Top => Ok(range(Interval::TOP)),
        Name::Bottom => Ok(range(Interval::BOTTOM)),
        _ => Err(NotUnderstood),
    }
}

fn of_number(op: Name, n: i64) -> Result<Answer, NotAnswered> {
    match op {
        Name::OfNumber => Ok(range(Interval::of_number(n))),
        Name::Greater => Ok(range(Interval::greater(n))),
        Name::Smaller => Ok(range(Interval::smaller(n))),
        _ => Err(NotUnderstood),
    }
}

fn of_one(op: Name, i: Interval) -> Result<Answer, NotAnswered> {
    match op {
        Name::Singleton => Ok(Answer::Number(i.singleton())),
        Name::LogicalNot => Ok(range(ported::logical_not(i))),
        Name::Neg => Ok(range(ported::neg(i)?)),
        _ => Err(NotUnderstood),
    }
}

// A match on the names: what the operations take and answer differs, so that a table of them is no plainer.
fn of_two(op: Name, i: Interval, j: Interval) -> Result<Answer, NotAnswered> {
    match op {
        Name::Join => Ok(range(ported::join(i, j))),
        Name::Meet => Ok(range(ported::meet(i, j))),
        Name::PartialCmp => Ok(Answer::Order(ported::partial_cmp(i, j))),
        Name::Widen => Ok(range(ported::widen(i, j))),
        Name::Narrow => Ok(range(ported::narrow(i, j))),
        Name::Add => Ok(range(ported::add(i, j))),
        Name::Sub => Ok(range(ported::sub(i, j)?)),
        Name::Mul => Ok(range(ported::mul(i, j))),
        Name::Rem => Ok(range(ported::rem(i, j)?)),
        Name::LogicalAnd => Ok(range(ported::logical_and(i, j))),
        Name::LogicalOr => Ok(range(ported::logical_or(i, j))),
        Name::StrictCmp => Ok(Answer::Order(ported::strict_cmp(i, j))),
        Name::WeakCmp => Ok(Answer::Order(ported::weak_cmp(i, j))),
        Name::Equals => Ok(range(ported::equals(i, j))),
        Name::MayEqualWhen => Ok(range(ported::may_equal_when(i, j))),
        Name::MaybeLessWhen => Ok(Answer::Ranges(ported::maybe_less_when(i, j)?)),
        Name::MaybeLeWhen => Ok(Answer::Ranges(ported::maybe_le_when(i, j))),
        _ => Err(NotUnderstood),
    }
}

fn of_numbers(op: Name, line: &[u8], at: usize) -> Result<Answer, NotAnswered> {
    let mut room = [0; 4];
    let n = numbers(line, at, &mut room).ok_or(NotUnderstood)?;
    match &room[..n] {
        [] => of_none(op),
        [n] => of_number(op, *n),
        [a, b] => of_one(op, of_ends(*a, *b)),
        [a, b, c, d] => of_two(op, of_ends(*a, *b), of_ends(*c, *d)),
        _ => Err(NotUnderstood),
    }
}

fn of_sign(line: &[u8], at: usize) -> Result<Answer, NotAnswered> {
    let mut room = [Name::Top; 3];
    let n = operands(line, at, &mut room, name_at).ok_or(NotUnderstood)?;
    match &room[..n] {
        [Name::Signed(s)] => Ok(range(Interval::of_sign(*s))),
        _ => Err(NotUnderstood),
    }
}

// The answer to what stands after the family's name.
pub(crate) fn answer(line: &[u8], at: usize) -> Result<Answer, NotAnswered> {
    let (op, next) = name_at(line, at).ok_or(NotUnderstood)?;
    match op {
        Name::OfSign => of_sign(line, next),
        _ => of_numbers(op, line, next),
    }
}

fn mended_one(size: Size, op: Name, i: Interval) -> Result<Answer, NotAnswered> {
    match op {
        Name::Neg => Ok(Answer::Range(size, mended::neg(size, i)?)),
        _ => Err(NotUnderstood),
    }
}

fn mended_two(size: Size, op: Name, i: Interval, j: Interval) -> Result<Answer, NotAnswered> {
    match op {
        Name::Add => Ok(Answer::Range(size, mended::add(size, i, j)?)),
        Name::Sub => Ok(Answer::Range(size, mended::sub(size, i, j)?)),
        Name::Mul => Ok(Answer::Range(size, mended::mul(size, i, j)?)),
        Name::Div => Ok(Answer::Range(size, mended::div(size, i, j)?)),
        Name::Rem => Ok(Answer::Range(size, mended::rem(size, i, j)?)),
        Name::Narrow => Ok(Answer::Range(size, mended::narrow(size, i, j)?)),
        Name::Equals => Ok(Answer::Range(size, mended::equals(size, i, j)?)),
        Name::Less => Ok(Answer::Range(size, mended::less(size, i, j)?)),
        Name::Greater => Ok(Answer::Range(size, mended::greater(size, i, j)?)),
        Name::LessOrEqual => Ok(Answer::Range(size, mended::less_or_equal(size, i, j)?)),
        Name::GreaterOrEqual => Ok(Answer::Range(size, mended::greater_or_equal(size, i, j)?)),
        _ => Err(NotUnderstood),
    }
}

// The answer to what stands after `mended interval`, at a size of numbers.
pub(crate) fn mended_answer(line: &[u8], at: usize, size: Size) -> Result<Answer, NotAnswered> {
    let (op, next) = name_at(line, at).ok_or(NotUnderstood)?;
    let mut room = [0; 4];
    let n = numbers(line, next, &mut room).ok_or(NotUnderstood)?;
    match &room[..n] {
        [a, b] => mended_one(size, op, of_ends(*a, *b)),
        [a, b, c, d] => mended_two(size, op, of_ends(*a, *b), of_ends(*c, *d)),
        _ => Err(NotUnderstood),
    }
}
