// What a step shows: a range, a spacing and a sign, or a refusal.
ghost use Rattle.std.specs.Prelude.{◌≡◌};
ghost use Rattle.whole.specs.Sized.{width_of};
ghost use Rattle.step.specs.Show.{show_op, input_shown};

use crate::Operator;
use congruence::Congruence;
use interval::Interval;
use refusal::Refusal;
use sign::Sign;
use whole::Size;

// What is known of a step's numbers.
#[derive(Clone, Copy)]
pub struct Shown {
    pub range: Interval,
    pub spacing: Congruence,
    pub sign: Sign,
}

// What an input shows: its range, the number itself if there is but one, and the sign of the range.
pub fn input(low: i64, high: i64) -> Shown
    ensures { result ≡ input_shown low high }
{
    let range = Interval {
        min: low,
        max: high,
    };
    let sign = interval::sign_of(range);
    let spacing = if low == high {
        Congruence {
            constant: low,
            modulus: 0,
        }
    } else {
        Congruence::TOP
    };
    Shown {
        range,
        spacing,
        sign,
    }
}

// What the operator shows on operands that show s, t and u.
pub fn show(size: Size, operator: Operator, s: Shown, t: Shown, u: Shown) -> Result<Shown, Refusal>
    ensures { result ≡ show_op (width_of size) operator s t u }
{
    let i = s.range;
    let range = crate::range::range(size, operator, i, t.range, u.range)?;
    let spacing = crate::spacing::spacing(size, operator, i, s.spacing, t.spacing, u.spacing);
    let sign = crate::signs::sign(operator, i, s.sign, t.sign, u.sign);
    Ok(Shown {
        range,
        spacing,
        sign,
    })
}
