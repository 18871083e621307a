// The mended twins, at a size of numbers: right by the sets. What is not canonical, a number outside the width among it, is
// refused by 1 first of all.
ghost use Rattle.refusal.specs.Answer.{told};
ghost use Rattle.std.specs.Prelude.{◌≡◌, true, false, ◌&&◌, ◌||◌, pos, neg_ℤ, ◌-ℤ◌, Ok, Some};
ghost use Rattle.std.specs.Int.Signed.{quot_z};
ghost use Rattle.whole.specs.Whole.{max_ℤ};
ghost use Rattle.whole.specs.Test.{◌≤?◌, ◌<?◌, ◌≟◌};
ghost use Rattle.whole.specs.Sized.{width_of};
ghost use Rattle.interval.specs.Set.{top, bottom, is_only, is_bottom, empty?, in_width?, canonical?};
ghost use Rattle.interval.specs.Full.{full?, unmade};
ghost use Rattle.interval.specs.Ends.{range_of, least_of, greatest_of, held_range};
ghost use Rattle.interval.specs.Mended as mended;

use super::{
    BOOL_RANGE, FALSE_RANGE, Interval, both_single, filled, greatest_of, is_empty, narrowed,
    single_rem, verdict,
};
use refusal::Refusal;
use whole::{Size, exact_mul, exact_quotient, max_of, min_of, saturating_add};

// ---- the ends

// Every number of the width.
pub fn top(size: Size) -> Interval
    ensures { result ≡ top (width_of size) }
{
    Interval {
        min: size.least(),
        max: size.greatest(),
    }
}

// No number.
pub fn bottom(size: Size) -> Interval
    ensures { result ≡ bottom (width_of size) }
{
    Interval {
        min: size.greatest(),
        max: size.least(),
    }
}

fn has_ends(a: Interval, low: i64, high: i64) -> bool
    ensures { result ≡ ((a.min ≟ low) && (a.max ≟ high)) }
{
    a.min == low && a.max == high
}

pub fn is_bottom(size: Size, a: Interval) -> bool
    ensures { result ≡ is_bottom (width_of size) a }
{
    has_ends(a, size.greatest(), size.least())
}

// ---- what is asked first

// Whether both ends are numbers of the width.
fn in_width(size: Size, a: Interval) -> bool
    ensures { result ≡ in_width? (width_of size) a }
{
    size.fits(a.min) && size.fits(a.max)
}

fn canonical(size: Size, a: Interval) -> bool
    ensures { result ≡ canonical? (width_of size) a }
{
    if is_empty(a) {
        is_bottom(size, a)
    } else {
        in_width(size, a)
    }
}

// Canonical, and not bottom.
fn is_full(size: Size, a: Interval) -> bool
    ensures { result ≡ full? (width_of size) a }
{
    !is_empty(a) && in_width(size, a)
}

// What is answered where one of the two is not full: bottom, or 1 where one is not canonical.
fn unmade(size: Size, a: Interval, b: Interval) -> Result<Interval, Refusal>
    ensures { told result ≡ unmade (width_of size) a b }
{
    if canonical(size, a) && canonical(size, b) {
        Ok(bottom(size))
    } else {
        Err(Refusal::NotInDomain)
    }
}

// The answer to an arithmetic operation: `made`, if both are canonical and neither is bottom. The rare answers stand apart, so that this is short.
// `made` is no closure: the clause is over `told made`.
fn strict(
    size: Size,
    a: Interval,
    b: Interval,
    made: Result<Interval, Refusal>,
) -> Result<Interval, Refusal>
    ensures { told result ≡ mended.strict (width_of size) a b (told made) }
{
    if is_full(size, a) && is_full(size, b) {
        made
    } else {
        unmade(size, a, b)
    }
}

// The answer to a comparison: `made`, or both if a side is empty.
fn lenient(size: Size, a: Interval, b: Interval, made: Interval) -> Result<Interval, Refusal>
    ensures { told result ≡ mended.lenient (width_of size) a b made }
{
    if !canonical(size, a) || !canonical(size, b) {
        return Err(Refusal::NotInDomain);
    }
    if is_empty(a) || is_empty(b) {
        return Ok(BOOL_RANGE);
    }
    Ok(made)
}

// ---- arithmetic

// The range between two ends that fit.
fn range_of(low: Option<i64>, high: Option<i64>) -> Result<Interval, Refusal>
    ensures { told result ≡ range_of low high }
{
    let (Some(min), Some(max)) = (low, high) else {
        return Err(Refusal::DoesNotFit);
    };
    Ok(Interval { min, max })
}

// The least range of all opposites.
pub fn neg(size: Size, a: Interval) -> Result<Interval, Refusal>
    ensures { told result ≡ mended.neg (width_of size) a }
{
    strict(size, a, a, range_of(size.neg(a.max), size.neg(a.min)))
}

// The least range of all sums.
pub fn add(size: Size, a: Interval, b: Interval) -> Result<Interval, Refusal>
    ensures { told result ≡ mended.add (width_of size) a b }
{
    strict(
        size,
        a,
        b,
        range_of(size.add(a.min, b.min), size.add(a.max, b.max)),
    )
}

// The least range of all differences.
pub fn sub(size: Size, a: Interval, b: Interval) -> Result<Interval, Refusal>
    ensures { told result ≡ mended.sub (width_of size) a b }
{
    strict(
        size,
        a,
        b,
        range_of(size.sub(a.min, b.max), size.sub(a.max, b.min)),
    )
}

// The lesser of two numbers that fit.
fn least_of(x: Option<i64>, y: Option<i64>) -> Option<i64>
    ensures { result ≡ least_of x y }
{
    Some(min_of(x?, y?))
}

// The range of four corners, refused if one of them doesn't fit.
fn corner_range(
    p: Option<i64>,
    q: Option<i64>,
    r: Option<i64>,
    s: Option<i64>,
) -> Result<Interval, Refusal>
    ensures { told result ≡ range_of (least_of (least_of p q) (least_of r s)) (greatest_of (greatest_of p q) (greatest_of r s)) }
{
    range_of(
        least_of(least_of(p, q), least_of(r, s)),
        greatest_of(greatest_of(p, q), greatest_of(r, s)),
    )
}

fn range_in(size: Size, v: Interval) -> Result<Interval, Refusal>
    ensures { told result ≡ mended.ranged (width_of size) v.min v.max }
{
    range_of(size.exact(v.min), size.exact(v.max))
}

// A range of 64 bits, refused if an end is no number of the width.
fn held(size: Size, r: Result<Interval, Refusal>) -> Result<Interval, Refusal>
    ensures { told result ≡ held_range (width_of size) (told r) }
{
    let v = r?;
    match size {
        Size::B64 => Ok(v),
        _ => range_in(size, v),
    }
}

// The least range of all products.
pub fn mul(size: Size, a: Interval, b: Interval) -> Result<Interval, Refusal>
    ensures { told result ≡ mended.mul (width_of size) a b }
{
    let corners = corner_range(
        exact_mul(a.min, b.min),
        exact_mul(a.min, b.max),
        exact_mul(a.max, b.min),
        exact_mul(a.max, b.max),
    );
    strict(size, a, b, held(size, corners))
}

// Whether the divisor's range holds 0, or MIN / -1 can occur.
fn unbounded(size: Size, a: Interval, b: Interval) -> bool
    ensures { result ≡ mended.unbounded? (width_of size) a b }
{
    b.holds(0) || (a.holds(size.least()) && b.holds(-1))
}

// The range of the four quotients of ends.
fn corner_quotients(size: Size, a: Interval, b: Interval) -> Result<Interval, Refusal>
    ensures { told result ≡ mended.ranged (width_of size) (mended.low_corner quot_z a b) (mended.high_corner quot_z a b) }
{
    let corners = corner_range(
        exact_quotient(a.min, b.min),
        exact_quotient(a.min, b.max),
        exact_quotient(a.max, b.min),
        exact_quotient(a.max, b.max),
    );
    held(size, corners)
}

fn quotients(size: Size, a: Interval, b: Interval) -> Result<Interval, Refusal>
    ensures { told result ≡ mended.quotients_of (width_of size) a b }
{
    if b.is_only(0) {
        return Ok(bottom(size));
    }
    if unbounded(size, a, b) {
        return Ok(top(size));
    }
    corner_quotients(size, a, b)
}

// The least range of all quotients toward zero; every number where the divisor's range holds 0 or MIN / -1 can occur, none by [0, 0].
pub fn div(size: Size, a: Interval, b: Interval) -> Result<Interval, Refusal>
    ensures { told result ≡ mended.div (width_of size) a b }
{
    strict(size, a, b, quotients(size, a, b))
}

// M - 1, for M the greatest magnitude from low to high. It fits also where M is 2^63.
fn reach(low: i64, high: i64) -> i64
    requires { (high <? low) ≡ false }
    ensures { result ≡ max_ℤ (neg_ℤ low) high -ℤ pos 1 }
{
    let next = saturating_add(low, 1);
    max_of(-next, saturating_add(high, -1))
}

// The remainders of a's numbers, where all remainders lie from low to high.
fn remainders(a: Interval, low: i64, high: i64) -> Interval
    ensures { result ≡ mended.rem_within a low high }
{
    if a.is_only(0) {
        return FALSE_RANGE;
    }
    if a.min >= 0 {
        return Interval { min: 0, max: high };
    }
    if a.max <= 0 {
        return Interval { min: low, max: 0 };
    }
    Interval {
        min: low,
        max: high,
    }
}

// The range of remainders, by the greatest magnitude in b.
fn rem_range(a: Interval, b: Interval) -> Interval
    requires { empty? b ≡ false }
    ensures { result ≡ mended.rem_range a (mended.magnitude b) }
{
    let high = reach(b.min, b.max);
    remainders(a, -high, high)
}

fn rem_of(size: Size, a: Interval, b: Interval) -> Result<Interval, Refusal>
    requires { empty? b ≡ false }
    ensures { told result ≡ mended.rem_of (width_of size) a b }
{
    if b.is_only(0) {
        return Ok(bottom(size));
    }
    if both_single(a, b) {
        return single_rem(size, a.min, b.min);
    }
    Ok(rem_range(a, b))
}

// The remainders, by document 01's rule with the greatest magnitude in b.
pub fn rem(size: Size, a: Interval, b: Interval) -> Result<Interval, Refusal>
    ensures { told result ≡ mended.rem (width_of size) a b }
{
    if is_empty(b) {
        return strict(size, a, b, Ok(bottom(size)));
    }
    strict(size, a, b, rem_of(size, a, b))
}

// ---- comparisons

fn equal_ever(a: Interval, b: Interval) -> bool
    ensures { result ≡ ((a.max ≤? b.min) && (b.max ≤? a.min)) }
{
    a.max <= b.min && b.max <= a.min
}

fn equal_never(a: Interval, b: Interval) -> bool
    ensures { result ≡ ((a.max <? b.min) || (b.max <? a.min)) }
{
    a.max < b.min || b.max < a.min
}

// Whether every pair is equal, or none.
pub fn equals(size: Size, a: Interval, b: Interval) -> Result<Interval, Refusal>
    ensures { told result ≡ mended.equals (width_of size) a b }
{
    lenient(size, a, b, verdict(equal_ever(a, b), equal_never(a, b)))
}

// Whether the left number is less in every pair, or in none.
pub fn less(size: Size, a: Interval, b: Interval) -> Result<Interval, Refusal>
    ensures { told result ≡ mended.less (width_of size) a b }
{
    lenient(size, a, b, verdict(a.max < b.min, b.max <= a.min))
}

// Whether the left number is greater in every pair, or in none.
pub fn greater(size: Size, a: Interval, b: Interval) -> Result<Interval, Refusal>
    ensures { told result ≡ mended.greater (width_of size) a b }
{
    less(size, b, a)
}

// Whether the left number is at most the right one in every pair, or in none.
pub fn less_or_equal(size: Size, a: Interval, b: Interval) -> Result<Interval, Refusal>
    ensures { told result ≡ mended.less_or_equal (width_of size) a b }
{
    lenient(size, a, b, verdict(a.max <= b.min, b.max < a.min))
}

// Whether the left number is at least the right one in every pair, or in none.
pub fn greater_or_equal(size: Size, a: Interval, b: Interval) -> Result<Interval, Refusal>
    ensures { told result ≡ mended.greater_or_equal (width_of size) a b }
{
    less_or_equal(size, b, a)
}

// ---- narrowing

// The ported narrowing, made bottom where it holds nothing.
pub fn narrow(size: Size, new: Interval, previous: Interval) -> Result<Interval, Refusal>
    ensures { told result ≡ mended.narrow (width_of size) new previous }
{
    if !canonical(size, new) || !canonical(size, previous) {
        return Err(Refusal::NotInDomain);
    }
    Ok(filled(size, narrowed(size, new, previous)))
}
