// The range that each operator shows.
ghost use Rattle.refusal.specs.Answer.{told};
ghost use Rattle.std.specs.Prelude.{◌≡◌, None, Ok, Some};
ghost use Rattle.whole.specs.Sized.{width_of};
ghost use Rattle.step.specs.Range.{fitting_all, divided_all, logical_all, chosen_by, range_op};

use crate::Operator;
use interval::{Interval, mended, ported};
use refusal::Refusal;
use whole::Size;

// 13, where the mended operation doesn't fit.
fn fitting(a: Result<Interval, Refusal>) -> Result<Interval, Refusal>
    ensures { result ≡ fitting_all (told a) }
{
    a.map_err(|_| Refusal::ResultTooWide)
}

// 12 where the divisor's range holds 0, 13 where MIN and -1 can meet.
fn divisible(size: Size, i: Interval, j: Interval) -> Result<(), Refusal>
    ensures { result ≡ divided_all (width_of size) i j (Ok tt) }
{
    if j.holds(0) {
        return Err(Refusal::DivisorZero);
    }
    if i.holds(size.least()) && j.holds(-1) {
        return Err(Refusal::ResultTooWide);
    }
    Ok(())
}

// 14 where the operand's range isn't inside [0, 1].
fn logical(i: Interval) -> Result<(), Refusal>
    ensures { result ≡ logical_all i (Ok tt) }
{
    if 0 <= i.min && i.max <= 1 {
        Ok(())
    } else {
        Err(Refusal::NotLogical)
    }
}

// The one of two values that a condition of range i settles on, if it is 1 alone or 0 alone.
pub(crate) fn settled<T: Copy>(i: Interval, t: T, u: T) -> Option<T>
    ensures { result ≡ chosen_by i (Some t) (Some u) None }
{
    if i.is_only(1) {
        Some(t)
    } else if i.is_only(0) {
        Some(u)
    } else {
        None
    }
}

// The range that the operator shows on operands of these ranges. Three arguments, here and in run, spacing and sign: a clause over an
// array of them would index it, which is no plainer.
pub fn range(
    size: Size,
    operator: Operator,
    i: Interval,
    j: Interval,
    k: Interval,
) -> Result<Interval, Refusal>
    ensures { result ≡ range_op (width_of size) operator i j k }
{
    match operator {
        Operator::Constant(n) => Ok(Interval { min: n, max: n }),
        Operator::Add => fitting(mended::add(size, i, j)),
        Operator::Sub => fitting(mended::sub(size, i, j)),
        Operator::Mul => fitting(mended::mul(size, i, j)),
        Operator::Div => {
            divisible(size, i, j)?;
            fitting(mended::div(size, i, j))
        }
        Operator::Rem => {
            divisible(size, i, j)?;
            fitting(mended::rem(size, i, j))
        }
        Operator::Equals => fitting(mended::equals(size, i, j)),
        Operator::And => {
            logical(i)?;
            logical(j)?;
            Ok(ported::logical_and(i, j))
        }
        Operator::Or => {
            logical(i)?;
            logical(j)?;
            Ok(ported::logical_or(i, j))
        }
        Operator::Less => fitting(mended::less(size, i, j)),
        Operator::Greater => fitting(mended::greater(size, i, j)),
        Operator::LessOrEqual => fitting(mended::less_or_equal(size, i, j)),
        Operator::GreaterOrEqual => fitting(mended::greater_or_equal(size, i, j)),
        Operator::Not => {
            logical(i)?;
            Ok(ported::logical_not(i))
        }
        Operator::Same => Ok(i),
        Operator::Choose => {
            logical(i)?;
            Ok(settled(i, j, k).unwrap_or_else(|| ported::join(j, k)))
        }
    }
}
