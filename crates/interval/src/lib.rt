// Intervals: the whole numbers from min to max. Bottom, which stands for none, is [MAX, MIN].
#![tactic(auto)]

ghost use Rattle.refusal.specs.Answer.{told};
ghost use Rattle.std.specs.Prelude.{◌≡◌, ◌&&◌, Ok, Some};
ghost use Rattle.std.specs.Int.{w64};
ghost use Rattle.whole.specs.Choice.{pick};
ghost use Rattle.whole.specs.Test.{◌≟◌};
ghost use Rattle.whole.specs.Range.{least, greatest};
ghost use Rattle.whole.specs.Sized.{width_of};
ghost use Rattle.interval.specs.Set.{◌⋯◌, ◌∈?◌, single, is_only, is_bottom, empty?};
ghost use Rattle.interval.specs.Mended.{filled, narrowed, rem_single, verdict};
ghost use Rattle.interval.specs.Ends.{greatest_of};
ghost use Rattle.interval.specs.Ported.{singleton, of_sign, side_sign, sign_of};

use refusal::Refusal;
use sign::Sign;
use whole::{MAX, MIN, Size, max_of, remainder};

pub mod ported; // ported.rt: the Rust's operations, a panic as a refusal
pub mod mended; // mended.rt: the twins that are right, at a size of numbers

// Canonical: min at most max, or bottom. Every pair is in the domain of the ported operations.
#[derive(Clone, Copy, Debug, PartialEq, Eq)]
pub struct Interval {
    pub min: i64,
    pub max: i64,
}

// Two intervals, one for each side of a comparison.
#[derive(Clone, Copy, Debug, PartialEq, Eq)]
pub struct Pair {
    pub left: Interval,
    pub right: Interval,
}

// The ranges of truth: both, true and false.
pub const BOOL_RANGE: Interval = Interval { min: 0, max: 1 };

pub const TRUE_RANGE: Interval = Interval { min: 1, max: 1 };

pub const FALSE_RANGE: Interval = Interval { min: 0, max: 0 };

impl Interval {
    pub const TOP: Interval = Interval { min: MIN, max: MAX };

    pub const BOTTOM: Interval = Interval { min: MAX, max: MIN };

    // [n, inf].
    pub fn greater(n: i64) -> Interval
        ensures { result ≡ (n ⋯ greatest w64) }
    {
        Interval { min: n, max: MAX }
    }

    // [-inf, n].
    pub fn smaller(n: i64) -> Interval
        ensures { result ≡ (least w64 ⋯ n) }
    {
        Interval { min: MIN, max: n }
    }

    // n alone.
    pub fn of_number(n: i64) -> Interval
        ensures { result ≡ single n }
    {
        Interval { min: n, max: n }
    }

    // The numbers of a sign, and 0 with those of NonZero.
    pub fn of_sign(s: Sign) -> Interval
        ensures { result ≡ of_sign s }
    {
        match s {
            Sign::Top => Interval::TOP,
            Sign::Bottom => Interval::BOTTOM,
            Sign::Negative => Interval { min: MIN, max: -1 },
            Sign::Zero => Interval { min: 0, max: 0 },
            Sign::Positive => Interval { min: 1, max: MAX },
            Sign::NonNeg => Interval { min: 0, max: MAX },
            Sign::NonZero => Interval::TOP,
            Sign::NonPos => Interval { min: MIN, max: 0 },
        }
    }

    // Its one number, if min is max.
    pub fn singleton(self) -> Option<i64>
        ensures { result ≡ singleton self }
    {
        if self.min == self.max {
            Some(self.min)
        } else {
            None
        }
    }

    // Whether it is bottom, the pair [MAX, MIN].
    pub fn is_bottom(self) -> bool
        ensures { result ≡ is_bottom w64 self }
    {
        self.min == MAX && self.max == MIN
    }

    // Whether n is its one number.
    pub fn is_only(self, n: i64) -> bool
        ensures { result ≡ is_only self n }
    {
        self.min == n && self.max == n
    }

    // Whether n is one of its numbers.
    pub fn holds(self, n: i64) -> bool
        ensures { result ≡ (n ∈? self) }
    {
        self.min <= n && n <= self.max
    }

    // Bottom for a pair that stands for nothing.
    fn normalize(self) -> Interval
        ensures { result ≡ filled w64 self }
    {
        filled(Size::B64, self)
    }
}

// The sign of a pair that is neither bottom nor [0, 0].
fn side_of(a: Interval) -> Sign
    ensures { result ≡ side_sign a }
{
    if a.max < 0 {
        return Sign::Negative;
    }
    if a.max <= 0 {
        return Sign::NonPos;
    }
    if a.min > 0 {
        return Sign::Positive;
    }
    if a.min >= 0 {
        return Sign::NonNeg;
    }
    Sign::Top
}

// The sign of an interval.
pub fn sign_of(a: Interval) -> Sign
    ensures { result ≡ sign_of a }
{
    if a.is_bottom() {
        return Sign::Bottom;
    }
    if a.is_only(0) {
        return Sign::Zero;
    }
    side_of(a)
}

// ---- what ported and mended operations share

// True if it holds for every pair, false if for none, else both.
fn verdict(every: bool, none: bool) -> Interval
    ensures { result ≡ verdict every none }
{
    if every {
        TRUE_RANGE
    } else if none {
        FALSE_RANGE
    } else {
        BOOL_RANGE
    }
}

// The greater of two numbers that fit.
fn greatest_of(x: Option<i64>, y: Option<i64>) -> Option<i64>
    ensures { result ≡ greatest_of x y }
{
    Some(max_of(x?, y?))
}

// Whether both have one number only.
fn both_single(a: Interval, b: Interval) -> bool
    ensures { result ≡ ((a.min ≟ a.max) && (b.min ≟ b.max)) }
{
    a.min == a.max && b.min == b.max
}

// Whether no number lies between the ends.
fn is_empty(a: Interval) -> bool
    ensures { result ≡ empty? a }
{
    a.max < a.min
}

// Bottom for a pair that stands for nothing.
fn filled(size: Size, a: Interval) -> Interval
    ensures { result ≡ filled (width_of size) a }
{
    if is_empty(a) { mended::bottom(size) } else { a }
}

// The new end where the previous one is the width's.
fn end_of(infinite: i64, new: i64, previous: i64) -> i64
    ensures { result ≡ pick (previous ≟ infinite) new previous }
{
    if previous == infinite { new } else { previous }
}

// Takes the new end where the previous one is infinite.
fn narrowed(size: Size, new: Interval, previous: Interval) -> Interval
    ensures { result ≡ narrowed (width_of size) new previous }
{
    if mended::is_bottom(size, previous) || mended::is_bottom(size, new) {
        return mended::bottom(size);
    }
    Interval {
        min: end_of(size.least(), new.min, previous.min),
        max: end_of(size.greatest(), new.max, previous.max),
    }
}

// The remainder of two numbers, refused where their quotient doesn't fit.
fn single_rem(size: Size, x: i64, y: i64) -> Result<Interval, Refusal>
    ensures { told result ≡ rem_single (width_of size) x y }
{
    size.quotient(x, y).ok_or(Refusal::DoesNotFit)?;
    Ok(Interval::of_number(remainder(x, y)))
}
