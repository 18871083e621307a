// The families `sign` and `mended sign`: a sign is its name.
use crate::answer::Answer;
use crate::answer::NotAnswered::{self, NotUnderstood};
use crate::intervals::of_ends;
use crate::names::{Name, name_at};
use crate::take::{one, operands, two};
use sign::{Sign, mended, ported};

fn of_none(op: Name) -> Result<Answer, NotAnswered> {
    match op {
        Name::Top => Ok(Answer::Sign(sign::top())),
        Name::Bottom => Ok(Answer::Sign(sign::bottom())),
        _ => Err(NotUnderstood),
    }
}

fn of_one(op: Name, a: Sign) -> Result<Answer, NotAnswered> {
    match op {
        Name::Neg => Ok(Answer::Sign(ported::neg(a))),
        Name::LogicalNot => Ok(Answer::Sign(ported::logical_not(a)?)),
        _ => Err(NotUnderstood),
    }
}

// A match on the names: what the operations take and answer differs, so that a table of them is no plainer.
fn of_two(op: Name, a: Sign, b: Sign) -> Result<Answer, NotAnswered> {
    match op {
        Name::Join => Ok(Answer::Sign(ported::join(a, b))),
        Name::Meet => Ok(Answer::Sign(ported::meet(a, b))),
        Name::PartialCmp => Ok(Answer::Order(ported::partial_cmp(a, b))),
        Name::Widen => Ok(Answer::Sign(ported::widen(a, b))),
        Name::Narrow => Ok(Answer::Sign(ported::narrow(a, b))),
        Name::Add => Ok(Answer::Sign(ported::add(a, b))),
        Name::Sub => Ok(Answer::Sign(ported::sub(a, b))),
        Name::Mul => Ok(Answer::Sign(ported::mul(a, b))),
        Name::Div => Ok(Answer::Sign(ported::div(a, b))),
        Name::Rem => Ok(Answer::Sign(ported::rem(a, b))),
        Name::LogicalAnd => Ok(Answer::Sign(ported::logical_and(a, b))),
        Name::LogicalOr => Ok(Answer::Sign(ported::logical_or(a, b))),
        Name::StrictCmp => Ok(Answer::Order(ported::strict_cmp(a, b))),
        Name::WeakCmp => Ok(Answer::Order(ported::weak_cmp(a, b))),
        _ => Err(NotUnderstood),
    }
}

fn and_bool(op: Name, a: Sign, b: Sign, is_bool: bool) -> Result<Answer, NotAnswered> {
    match op {
        Name::LogicalEq => Ok(Answer::Sign(ported::logical_eq(a, b, is_bool))),
        _ => Err(NotUnderstood),
    }
}

// Signs that end the line, and the truth value that logical_eq has after them.
fn of_signs(op: Name, line: &[u8], at: usize) -> Result<Answer, NotAnswered> {
    let mut room = [Name::Top; 3];
    let n = operands(line, at, &mut room, name_at).ok_or(NotUnderstood)?;
    match &room[..n] {
        [] => of_none(op),
        [Name::Signed(a)] => of_one(op, *a),
        [Name::Signed(a), Name::Signed(b)] => of_two(op, *a, *b),
        [Name::Signed(a), Name::Signed(b), Name::True] => and_bool(op, *a, *b, true),
        [Name::Signed(a), Name::Signed(b), Name::False] => and_bool(op, *a, *b, false),
        _ => Err(NotUnderstood),
    }
}

// The answer to what stands after the family's name.
pub(crate) fn answer(line: &[u8], at: usize) -> Result<Answer, NotAnswered> {
    let (op, next) = name_at(line, at).ok_or(NotUnderstood)?;
    match op {
        Name::OfNumber => {
            let n = one(line, next).ok_or(NotUnderstood)?;
            Ok(Answer::Sign(sign::of_number(n)))
        }
        Name::OfInterval => {
            let (a, b) = two(line, next).ok_or(NotUnderstood)?;
            Ok(Answer::Sign(interval::sign_of(of_ends(a, b))))
        }
        _ => of_signs(op, line, next),
    }
}

fn mended_two(op: Name, a: Sign, b: Sign) -> Result<Answer, NotAnswered> {
    match op {
        Name::WeakCmp => Ok(Answer::Order(mended::weak_cmp(a, b))),
        Name::Div => Ok(Answer::Sign(mended::div(a, b))),
        Name::Equals => Ok(Answer::Sign(mended::equals(a, b))),
        Name::Less => Ok(Answer::Sign(mended::less(a, b))),
        Name::Greater => Ok(Answer::Sign(mended::greater(a, b))),
        Name::LessOrEqual => Ok(Answer::Sign(mended::less_or_equal(a, b))),
        Name::GreaterOrEqual => Ok(Answer::Sign(mended::greater_or_equal(a, b))),
        _ => Err(NotUnderstood),
    }
}

fn mended_one(op: Name, a: Sign) -> Result<Answer, NotAnswered> {
    match op {
        Name::LogicalNot => Ok(Answer::Sign(mended::logical_not(a))),
        _ => Err(NotUnderstood),
    }
}

// The answer to what stands after `mended sign`.
pub(crate) fn mended_answer(line: &[u8], at: usize) -> Result<Answer, NotAnswered> {
    let (op, next) = name_at(line, at).ok_or(NotUnderstood)?;
    let mut room = [Name::Top; 3];
    let n = operands(line, next, &mut room, name_at).ok_or(NotUnderstood)?;
    match &room[..n] {
        [Name::Signed(a)] => mended_one(op, *a),
        [Name::Signed(a), Name::Signed(b)] => mended_two(op, *a, *b),
        _ => Err(NotUnderstood),
    }
}
