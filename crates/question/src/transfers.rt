// The family `transfer`: what an operator of a sheet does to intervals or congruences, by the two analyses.
use crate::answer::NotAnswered::{self, NotUnderstood};
use crate::answer::{Answer, range};
use crate::congruences::of_numbers;
use crate::intervals::of_ends;
use crate::names::{Name, name_at};
use crate::take::{number, numbers};

// An operator is a number here, as crate `transfer` takes it.
fn of_intervals(shape: Name, op: i64, numbers: &[i64]) -> Result<Answer, NotAnswered> {
    match (shape, numbers) {
        (Name::Unary, [a, b]) => Ok(range(transfer::interval_unary(op, of_ends(*a, *b))?)),
        (Name::Binary, [a, b, c, d]) => {
            let (i, j) = (of_ends(*a, *b), of_ends(*c, *d));
            Ok(range(transfer::interval_binary(op, i, j)?))
        }
        _ => Err(NotUnderstood),
    }
}

fn of_congruences(shape: Name, op: i64, numbers: &[i64]) -> Result<Answer, NotAnswered> {
    match (shape, numbers) {
        (Name::Unary, [c, m]) => Ok(Answer::Spacing(transfer::congruence_unary(
            op,
            of_numbers(*c, *m),
        )?)),
        (Name::Binary, [c, m, d, n]) => {
            let (x, y) = (of_numbers(*c, *m), of_numbers(*d, *n));
            Ok(Answer::Spacing(transfer::congruence_binary(op, x, y)?))
        }
        _ => Err(NotUnderstood),
    }
}

// The answer to what stands after the family's name: a domain, a shape, an operator's number, and four or two numbers to work on.
pub(crate) fn answer(line: &[u8], at: usize) -> Result<Answer, NotAnswered> {
    let (domain, p) = name_at(line, at).ok_or(NotUnderstood)?;
    let (shape, q) = name_at(line, p).ok_or(NotUnderstood)?;
    let (op, next) = number(line, q).ok_or(NotUnderstood)?;
    let mut room = [0; 4];
    let n = numbers(line, next, &mut room).ok_or(NotUnderstood)?;
    match domain {
        Name::Congruence => of_congruences(shape, op, &room[..n]),
        Name::Interval => of_intervals(shape, op, &room[..n]),
        _ => Err(NotUnderstood),
    }
}
