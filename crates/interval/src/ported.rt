// The Rust's operations on intervals, in its order and by its names. A panic is a refusal by 2.
ghost use Rattle.refusal.specs.Answer.{told};
ghost use Rattle.std.specs.Prelude.{◌≡◌, true, false, ◌&&◌, ◌||◌, ℤ, pos, neg_ℤ, nat_abs, ◌+ℤ◌, ◌-ℤ◌, Ok, Some};
ghost use Rattle.std.specs.Int.{w64};
ghost use Rattle.whole.specs.Choice.{pick};
ghost use Rattle.whole.specs.Test.{◌<?◌, ◌≟◌};
ghost use Rattle.whole.specs.Whole.{min_ℤ, max_ℤ, min4, max4};
ghost use Rattle.whole.specs.Range.{least, greatest, clamp};
ghost use Rattle.whole.specs.Exact.{exactly};
ghost use Rattle.interval.specs.Set.{◌⋯◌, single, is_only, is_bottom};
ghost use Rattle.interval.specs.Mended.{and_v, or_v, not_v, filled, narrowed};
ghost use Rattle.interval.specs.Mended as mended;
ghost use Rattle.interval.specs.Ported as ported;

use super::{
    BOOL_RANGE, FALSE_RANGE, Interval, Pair, TRUE_RANGE, both_single, greatest_of, narrowed,
    single_rem, verdict,
};
use refusal::Refusal;
use std::cmp::Ordering;
use whole::{
    MAX, MIN, Size, exact_of, magnitude, max_of, max_of_four, min_of, min_of_four, saturating_add,
    saturating_mul,
};

// ---- logic

fn both_only(a: Interval, b: Interval, n: i64) -> bool
    ensures { result ≡ (is_only a n && is_only b n) }
{
    a.is_only(n) && b.is_only(n)
}

fn one_only(a: Interval, b: Interval, n: i64) -> bool
    ensures { result ≡ (is_only a n || is_only b n) }
{
    a.is_only(n) || b.is_only(n)
}

// 1 if both are 1 alone, 0 if one is 0 alone, else both.
pub fn logical_and(a: Interval, b: Interval) -> Interval
    ensures { result ≡ and_v a b }
{
    verdict(both_only(a, b, 1), one_only(a, b, 0))
}

// 1 if one is 1 alone, 0 if both are 0 alone, else both.
pub fn logical_or(a: Interval, b: Interval) -> Interval
    ensures { result ≡ or_v a b }
{
    verdict(one_only(a, b, 1), both_only(a, b, 0))
}

// The other of 0 and 1, or both.
pub fn logical_not(a: Interval) -> Interval
    ensures { result ≡ not_v a }
{
    verdict(a.is_only(0), a.is_only(1))
}

// ---- comparisons of numbers

// Whether a side is bottom.
fn one_bottom(a: Interval, b: Interval) -> bool
    ensures { result ≡ (is_bottom w64 a || is_bottom w64 b) }
{
    a.is_bottom() || b.is_bottom()
}

fn same_one(a: Option<i64>, b: Option<i64>) -> Option<Ordering>
    ensures { result ≡ ported.same_one a b }
{
    if a? == b? {
        Some(Ordering::Equal)
    } else {
        None
    }
}

// Less or Greater if every pair is so, Equal for equal single numbers, else None.
pub fn strict_cmp(a: Interval, b: Interval) -> Option<Ordering>
    ensures { result ≡ ported.strict_cmp a b }
{
    if one_bottom(a, b) {
        return None;
    }
    if a.max < b.min {
        return Some(Ordering::Less);
    }
    if a.min > b.max {
        return Some(Ordering::Greater);
    }
    same_one(a.singleton(), b.singleton())
}

// As strict_cmp, but ranges that touch come first as Less, then as Greater.
pub fn weak_cmp(a: Interval, b: Interval) -> Option<Ordering>
    ensures { result ≡ ported.weak_cmp a b }
{
    if one_bottom(a, b) {
        return None;
    }
    if a.max <= b.min {
        return Some(Ordering::Less);
    }
    if a.min >= b.max {
        return Some(Ordering::Greater);
    }
    same_one(a.singleton(), b.singleton())
}

// Whether the numbers are equal, by strict_cmp.
pub fn equals(a: Interval, b: Interval) -> Interval
    ensures { result ≡ ported.equal_by (ported.strict_cmp a b) }
{
    match strict_cmp(a, b) {
        Some(Ordering::Less) => FALSE_RANGE,
        Some(Ordering::Equal) => TRUE_RANGE,
        Some(Ordering::Greater) => FALSE_RANGE,
        None => BOOL_RANGE,
    }
}

// ---- where a comparison may hold

// The numbers for which equality may hold.
pub fn may_equal_when(a: Interval, b: Interval) -> Interval
    ensures { result ≡ ported.may_equal_when a b }
{
    if one_bottom(a, b) {
        return Interval::BOTTOM;
    }
    meet(a, b)
}

fn apart(a: Interval, b: Interval) -> bool
    ensures { result ≡ ported.apart a b }
{
    one_bottom(a, b) || a.min > b.max
}

// The numbers of a up to n, and those from n on.
fn up_to(a: Interval, n: i64) -> Interval
    ensures { result ≡ filled w64 (a.min ⋯ min_ℤ a.max n) }
{
    let below = Interval {
        min: a.min,
        max: min_of(a.max, n),
    };
    below.normalize()
}

fn from_on(a: Interval, n: i64) -> Interval
    ensures { result ≡ filled w64 (max_ℤ n a.min ⋯ a.max) }
{
    let above = Interval {
        min: max_of(n, a.min),
        max: a.max,
    };
    above.normalize()
}

// The numbers of each side for which `<` may hold.
pub fn maybe_less_when(a: Interval, b: Interval) -> Result<Pair, Refusal>
    ensures { told result ≡ ported.maybe_less_when a b }
{
    if apart(a, b) {
        return Ok(Pair {
            left: Interval::BOTTOM,
            right: Interval::BOTTOM,
        });
    }
    if b.max == MIN || a.min == MAX {
        return Err(Refusal::DoesNotFit);
    }
    Ok(Pair {
        left: up_to(a, b.max - 1),
        right: from_on(b, a.min + 1),
    })
}

// The numbers of each side for which `<=` may hold.
pub fn maybe_le_when(a: Interval, b: Interval) -> Pair
    ensures { result ≡ ported.maybe_le_when a b }
{
    if apart(a, b) {
        return Pair {
            left: Interval::BOTTOM,
            right: Interval::BOTTOM,
        };
    }
    Pair {
        left: up_to(a, b.max),
        right: from_on(b, a.min),
    }
}

// ---- the lattice

// Whether b lies between the ends of a.
fn around(a: Interval, b: Interval) -> bool
    ensures { result ≡ ported.around a b }
{
    a.min <= b.min && a.max >= b.max
}

// The order: inclusion. An impl of PartialOrd would only call it.
pub fn partial_cmp(a: Interval, b: Interval) -> Option<Ordering>
    ensures { result ≡ ported.partial_cmp a b }
{
    if a == b {
        return Some(Ordering::Equal);
    }
    if around(a, b) {
        return Some(Ordering::Greater);
    }
    if around(b, a) {
        return Some(Ordering::Less);
    }
    None
}

// The least interval that holds both.
pub fn join(a: Interval, b: Interval) -> Interval
    ensures { result ≡ mended.join a b }
{
    Interval {
        min: min_of(a.min, b.min),
        max: max_of(a.max, b.max),
    }
}

// The end that an unstable one goes to.
fn widened(moved: bool, infinite: i64, previous: i64) -> i64
    ensures { result ≡ pick moved infinite previous }
{
    if moved { infinite } else { previous }
}

// Takes unstable ends to infinity.
pub fn widen(new: Interval, previous: Interval) -> Interval
    ensures { result ≡ ported.widen new previous }
{
    if previous.is_bottom() {
        return new;
    }
    Interval {
        min: widened(new.min < previous.min, MIN, previous.min),
        max: widened(previous.max < new.max, MAX, previous.max),
    }
}

// The common numbers.
pub fn meet(a: Interval, b: Interval) -> Interval
    ensures { result ≡ ported.meet a b }
{
    let result = Interval {
        min: max_of(a.min, b.min),
        max: min_of(a.max, b.max),
    };
    result.normalize()
}

// Takes the new end where the previous one is infinite.
pub fn narrow(new: Interval, previous: Interval) -> Interval
    ensures { result ≡ narrowed w64 new previous }
{
    narrowed(Size::B64, new, previous)
}

// ---- arithmetic

// The sum of two ends on one side, where an infinite one stays infinite.
fn add_ends(infinite: i64, x: i64, y: i64) -> i64
    ensures { result ≡ pick ((x ≟ infinite) || (y ≟ infinite)) infinite (clamp w64 (x +ℤ y)) }
{
    if x == infinite || y == infinite {
        infinite
    } else {
        saturating_add(x, y)
    }
}

// The sums, saturated; an infinite end stays infinite.
pub fn add(a: Interval, b: Interval) -> Interval
    ensures { result ≡ ported.add a b }
{
    if one_bottom(a, b) {
        return Interval::BOTTOM;
    }
    Interval {
        min: add_ends(MIN, a.min, b.min),
        max: add_ends(MAX, a.max, b.max),
    }
}

// Not one with neg_min: MAX becomes MIN here, and -MAX there.
fn neg_max(x: i64) -> i64
    requires { (x ≟ least w64) ≡ false }
    ensures { result ≡ pick (x ≟ greatest w64) (least w64) (neg_ℤ x) }
{
    if x == MAX { MIN } else { -x }
}

fn neg_min(x: i64) -> i64
    ensures { result ≡ pick (x ≟ least w64) (greatest w64) (neg_ℤ x) }
{
    if x == MIN { MAX } else { -x }
}

// The opposites; an infinite end changes its side.
pub fn neg(a: Interval) -> Result<Interval, Refusal>
    ensures { told result ≡ ported.neg a }
{
    if a.is_bottom() {
        return Ok(a);
    }
    if a.max == MIN {
        return Err(Refusal::DoesNotFit);
    }
    Ok(Interval {
        min: neg_max(a.max),
        max: neg_min(a.min),
    })
}

// The sum with the negated right side: refused where the negation is, also beside bottom.
pub fn sub(a: Interval, b: Interval) -> Result<Interval, Refusal>
    ensures { told result ≡ ported.sub a b }
{
    Ok(add(a, neg(b)?))
}

// The range of four numbers.
fn spread(p: i64, q: i64, r: i64, s: i64) -> Interval
    ensures { result ≡ (min4 p q r s ⋯ max4 p q r s) }
{
    Interval {
        min: min_of_four(p, q, r, s),
        max: max_of_four(p, q, r, s),
    }
}

// From the least to the greatest of the four saturated corner products.
pub fn mul(a: Interval, b: Interval) -> Interval
    ensures { result ≡ ported.mul a b }
{
    if one_bottom(a, b) {
        return Interval::BOTTOM;
    }
    spread(
        saturating_mul(a.min, b.min),
        saturating_mul(a.min, b.max),
        saturating_mul(a.max, b.min),
        saturating_mul(a.max, b.max),
    )
}

// The greater absolute value of two ends.
fn largest(low: i64, high: i64) -> Option<i64>
    ensures { result ≡ exactly w64 (max_ℤ (pos (nat_abs low)) (pos (nat_abs high))) }
{
    greatest_of(exact_of(magnitude(low)), exact_of(magnitude(high)))
}

fn rem_by(order: Option<Ordering>, low: i64, high: i64) -> Interval
    ensures { result ≡ ported.rem_by order low high }
{
    match order {
        Some(Ordering::Less) => Interval { min: low, max: 0 },
        Some(Ordering::Equal) => FALSE_RANGE,
        Some(Ordering::Greater) => Interval { min: 0, max: high },
        None => Interval {
            min: low,
            max: high,
        },
    }
}

// The remainders of a's numbers by divisors of a magnitude up to m.
fn rem_up_to(a: Interval, m: i64) -> Interval
    requires { (m <? pos 0) ≡ false }
    ensures { result ≡ ported.rem_by (ported.weak_cmp a (single (pos 0))) (neg_ℤ m +ℤ pos 1) (m -ℤ pos 1) }
{
    rem_by(weak_cmp(a, FALSE_RANGE), -m + 1, m - 1)
}

fn rem_large(a: Interval, b: Interval) -> Result<Interval, Refusal>
    ensures { told result ≡ ported.rem_large a (ported.largest b) }
{
    let m = largest(b.min, b.max).ok_or(Refusal::DoesNotFit)?;
    Ok(rem_up_to(a, m))
}

fn rem_nothing(a: Interval, b: Interval) -> bool
    ensures { result ≡ ((is_bottom w64 a || is_bottom w64 b) || is_only b (pos 0)) }
{
    one_bottom(a, b) || b.is_only(0)
}

// The remainders, by the greatest absolute value of the divisor's ends.
pub fn rem(a: Interval, b: Interval) -> Result<Interval, Refusal>
    ensures { told result ≡ ported.rem a b }
{
    if rem_nothing(a, b) {
        return Ok(Interval::BOTTOM);
    }
    if both_single(a, b) {
        return single_rem(Size::B64, a.min, b.min);
    }
    rem_large(a, b)
}
