// The twins that are right, by the rules of document 01.
ghost use Rattle.std.specs.Prelude.{◌≡◌};
ghost use Rattle.sign.specs.Sides as sides;
ghost use Rattle.sign.specs.Mended as mends;

use crate::{Sign, ported};
use std::cmp::Ordering;

// The ported table with its two cells exchanged.
#[tactic(auto, unfolding(crate::specs::Mended::weak_cmp, crate::specs::Ported::sub, crate::specs::Ported::add, crate::specs::Ported::neg))]
pub fn weak_cmp(a: Sign, b: Sign) -> Option<Ordering>
    ensures { result ≡ mends.weak_cmp a b }
{
    match (a, b) {
        (Sign::Zero, Sign::NonNeg) => Some(Ordering::Less),
        (Sign::Zero, Sign::NonPos) => Some(Ordering::Greater),
        _ => ported::weak_cmp(a, b),
    }
}

// A quotient of two numbers that aren't 0 may be 0.
#[tactic(auto, unfolding(crate::specs::Mended::div))]
pub fn div(a: Sign, b: Sign) -> Sign
    ensures { result ≡ mends.div a b }
{
    let quotient = ported::div(a, b);
    match quotient {
        Sign::NonZero => Sign::Top,
        _ => quotient,
    }
}

#[tactic(auto, unfolding(crate::specs::Mended::logical_not))]
pub fn logical_not(a: Sign) -> Sign
    ensures { result ≡ mends.logical_not a }
{
    match a {
        Sign::Bottom => Sign::Bottom,
        Sign::Zero => Sign::Positive,
        Sign::Positive => Sign::Zero,
        _ => Sign::NonNeg,
    }
}

// ---- comparisons: Positive for true, Zero for false, NonNeg for both

fn filled(s: Sign) -> bool
    ensures { result ≡ sides.filled s }
{
    s != Sign::Bottom
}

// Whether all differences lie in the relation, none does, or some do.
fn judged(relation: Sign, difference: Sign) -> Sign
    ensures { result ≡ mends.judged relation difference }
{
    if !filled(difference) {
        Sign::NonNeg
    } else if ported::at_most(difference, relation) {
        Sign::Positive
    } else if filled(ported::meet(difference, relation)) {
        Sign::NonNeg
    } else {
        Sign::Zero
    }
}

#[tactic(auto, unfolding(crate::specs::Mended::equals))]
pub fn equals(a: Sign, b: Sign) -> Sign
    ensures { result ≡ mends.equals a b }
{
    judged(Sign::Zero, ported::sub(a, b))
}

#[tactic(auto, unfolding(crate::specs::Mended::less))]
pub fn less(a: Sign, b: Sign) -> Sign
    ensures { result ≡ mends.less a b }
{
    judged(Sign::Negative, ported::sub(a, b))
}

#[tactic(auto, unfolding(crate::specs::Mended::greater))]
pub fn greater(a: Sign, b: Sign) -> Sign
    ensures { result ≡ mends.greater a b }
{
    judged(Sign::Positive, ported::sub(a, b))
}

#[tactic(auto, unfolding(crate::specs::Mended::less_or_equal))]
pub fn less_or_equal(a: Sign, b: Sign) -> Sign
    ensures { result ≡ mends.less_or_equal a b }
{
    judged(Sign::NonPos, ported::sub(a, b))
}

#[tactic(auto, unfolding(crate::specs::Mended::greater_or_equal))]
pub fn greater_or_equal(a: Sign, b: Sign) -> Sign
    ensures { result ≡ mends.greater_or_equal a b }
{
    judged(Sign::NonNeg, ported::sub(a, b))
}
