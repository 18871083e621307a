// Numbers on the way to an answer, for every i64: the gcd and the absolute value of numbers that may not fit, and whether two
// numbers differ by a multiple.
ghost use Rattle.std.specs.Prelude.{◌≡◌, ◌+◌, ◌-◌, nat_abs, ◌-ℤ◌};
ghost use Rattle.std.specs.Int.Signed.{rem_z};
ghost use Rattle.whole.specs.Test.{◌≟◌};
ghost use Rattle.whole.specs.Sized.{width_of};
ghost use Rattle.congruence.specs.Numbers.{gcd_then, abs_then, alike?};

use whole::{Size, gcd_u64, magnitude, remainder};

// x % m == c.
pub fn leaves(x: i64, m: i64, c: i64) -> bool
    ensures { result ≡ (rem_z x m ≟ c) }
{
    remainder(x, m) == c
}

#[tactic(auto, unfolding(crate::specs::Numbers::gcd_then))]
pub fn gcd_then(size: Size, x: Option<i64>, y: Option<i64>) -> Option<i64>
    ensures { result ≡ gcd_then (width_of size) x y }
{
    size.natural(gcd_u64(magnitude(x?), magnitude(y?)))
}

#[tactic(auto, unfolding(crate::specs::Numbers::abs_then))]
pub fn abs_then(size: Size, x: Option<i64>) -> Option<i64>
    ensures { result ≡ abs_then (width_of size) x }
{
    size.natural(magnitude(x?))
}

// Whether x and y differ by a multiple of m; for m = 0, whether they are equal.
pub fn alike(m: u64, x: i64, y: i64) -> bool
    ensures { result ≡ alike? m x y }
{
    x.abs_diff(y).is_multiple_of(m)
}
