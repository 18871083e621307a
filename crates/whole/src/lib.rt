// Whole numbers as i64 has them: exact sums, differences and products or that they don't fit, saturated ones, the least and
// the greatest, the floored remainder, and the common divisor and multiple. The laws stand in proofs/.
#![tactic(auto)]

ghost use Rattle.std.specs.Prelude.{◌≡◌, Bool, true, false, ◌&&◌, ℕ, ◌*◌, leb, ltb, ℤ, pos, negsuc, neg_ℤ, nat_abs, ◌+ℤ◌, ◌-ℤ◌, ◌*ℤ◌};
ghost use Rattle.std.specs.Int.Signed.{quot_z, rem_z};
ghost use Rattle.std.specs.Int.{w64};
ghost use Rattle.whole.specs.Whole.{up, min_ℤ, max_ℤ, min4, max4};
ghost use Rattle.whole.specs.Test.{◌≤?◌};
ghost use Rattle.whole.specs.Range.{least, greatest, fits?, clamp};
ghost use Rattle.whole.specs.Divides as divides;
ghost use Rattle.whole.specs.Exact.{exactly};
ghost use Rattle.whole.specs.Sized.{width_of, held_to};

pub const MAX: i64 = i64::MAX;

pub const MIN: i64 = i64::MIN;

// ---- the least and the greatest

pub fn min_of(a: i64, b: i64) -> i64
    ensures { result ≡ min_ℤ a b }
{
    a.min(b)
}

pub fn max_of(a: i64, b: i64) -> i64
    ensures { result ≡ max_ℤ a b }
{
    a.max(b)
}

pub fn min_of_four(a: i64, b: i64, c: i64, d: i64) -> i64
    ensures { result ≡ min4 a b c d }
{
    min_of(min_of(a, b), min_of(c, d))
}

pub fn max_of_four(a: i64, b: i64, c: i64, d: i64) -> i64
    ensures { result ≡ max4 a b c d }
{
    max_of(max_of(a, b), max_of(c, d))
}

// |x|, which fits u64 also for the least number.
pub fn magnitude(x: i64) -> u64
    ensures { result ≡ nat_abs x }
{
    x.unsigned_abs()
}

// The number itself, or 0 if it is negative.
pub fn natural(x: i64) -> u64
    ensures { result ≡ up x }
{
    if x < 0 { 0 } else { x as u64 }
}

// ---- whether a result fits, asked before it is made

pub fn neg_fits(x: i64) -> bool
    ensures { result ≡ fits? w64 (neg_ℤ x) }
{
    exact_neg(x).is_some()
}

pub fn add_fits(x: i64, y: i64) -> bool
    ensures { result ≡ fits? w64 (x +ℤ y) }
{
    exact_add(x, y).is_some()
}

pub fn sub_fits(x: i64, y: i64) -> bool
    ensures { result ≡ fits? w64 (x -ℤ y) }
{
    exact_sub(x, y).is_some()
}

pub fn mul_fits(x: i64, y: i64) -> bool
    ensures { result ≡ fits? w64 (x *ℤ y) }
{
    exact_mul(x, y).is_some()
}

// ---- the exact result, or that it doesn't fit

pub fn exact_neg(x: i64) -> Option<i64>
    ensures { result ≡ exactly w64 (neg_ℤ x) }
{
    x.checked_neg()
}

pub fn exact_add(x: i64, y: i64) -> Option<i64>
    ensures { result ≡ exactly w64 (x +ℤ y) }
{
    x.checked_add(y)
}

pub fn exact_sub(x: i64, y: i64) -> Option<i64>
    ensures { result ≡ exactly w64 (x -ℤ y) }
{
    x.checked_sub(y)
}

pub fn exact_mul(x: i64, y: i64) -> Option<i64>
    ensures { result ≡ exactly w64 (x *ℤ y) }
{
    x.checked_mul(y)
}

// ---- the nearest number that fits

pub fn saturating_add(x: i64, y: i64) -> i64
    ensures { result ≡ clamp w64 (x +ℤ y) }
{
    x.saturating_add(y)
}

pub fn saturating_mul(x: i64, y: i64) -> i64
    ensures { result ≡ clamp w64 (x *ℤ y) }
{
    x.saturating_mul(y)
}

// ---- divisibility

// x / d toward zero; 0 for d = 0.
pub fn exact_quotient(x: i64, d: i64) -> Option<i64>
    ensures { result ≡ exactly w64 (quot_z x d) }
{
    if d == 0 { Some(0) } else { x.checked_div(d) }
}

// x % m, where it can be formed; x itself for m = 0, and 0 for m = -1.
pub fn remainder(x: i64, m: i64) -> i64
    ensures { result ≡ rem_z x m }
{
    if m == 0 { x } else { x.wrapping_rem(m) }
}

// The number from 0 to |m| - 1 that differs from x by a multiple of m; x itself if m is 0.
pub fn floored_remainder(x: i64, m: i64) -> i64
    ensures { result ≡ divides.floor_rem x m }
{
    if m == 0 {
        return x;
    }
    if m == -1 {
        return 0;
    }
    x.rem_euclid(m)
}

// The greatest common divisor, by repeated remainder.
pub fn gcd_u64(a: u64, b: u64) -> u64
    ensures { result ≡ divides.gcd a b }
{
    let mut x = a;
    let mut y = b;
    // No for: Euclid's steps count no index.
    while y != 0 {
        let z = x % y;
        x = y;
        y = z;
    }
    x
}

// A natural number as an i64, or that it doesn't fit.
pub fn exact_of(n: u64) -> Option<i64>
    ensures { result ≡ exactly w64 (pos n) }
{
    i64::try_from(n).ok()
}

// The greatest common divisor of the absolute values: never negative, and 2^63 doesn't fit.
pub fn gcd(a: i64, b: i64) -> Option<i64>
    ensures { result ≡ exactly w64 (pos (divides.gcd (nat_abs a) (nat_abs b))) }
{
    exact_of(gcd_u64(magnitude(a), magnitude(b)))
}

// The least common multiple of two natural numbers, where it is an i64.
pub fn lcm_u64(a: u64, b: u64) -> Option<i64>
    ensures { result ≡ exactly w64 (pos (divides.lcm a b)) }
{
    let g = gcd_u64(a, b);
    if g == 0 {
        return Some(0);
    }
    exact_of((a / g).checked_mul(b)?)
}

// The least common multiple of the absolute values, 0 beside 0.
pub fn lcm(a: i64, b: i64) -> Option<i64>
    ensures { result ≡ exactly w64 (pos (divides.lcm (nat_abs a) (nat_abs b))) }
{
    lcm_u64(magnitude(a), magnitude(b))
}

// ---- the widths that panels have

#[derive(Clone, Copy)]
pub enum Size {
    B16,
    B32,
    B64,
}

fn between(low: i64, x: i64, high: i64) -> bool
    ensures { result ≡ ((low ≤? x) && (x ≤? high)) }
{
    low <= x && x <= high
}

impl Size {
    // MIN of the width.
    pub fn least(self) -> i64
        ensures { result ≡ least (width_of self) }
    {
        match self {
            Size::B16 => -32768,
            Size::B32 => -2147483648,
            Size::B64 => MIN,
        }
    }

    // MAX of the width.
    pub fn greatest(self) -> i64
        ensures { result ≡ greatest (width_of self) }
    {
        match self {
            Size::B16 => 32767,
            Size::B32 => 2147483647,
            Size::B64 => MAX,
        }
    }

    // Whether x is a number of the width.
    pub fn fits(self, x: i64) -> bool
        ensures { result ≡ fits? (width_of self) x }
    {
        match self {
            Size::B16 => between(-32768, x, 32767),
            Size::B32 => between(-2147483648, x, 2147483647),
            Size::B64 => true,
        }
    }

    // x, or that it doesn't fit the width.
    pub fn exact(self, x: i64) -> Option<i64>
        ensures { result ≡ exactly (width_of self) x }
    {
        if self.fits(x) { Some(x) } else { None }
    }

    // An exact number, if it is also one of the width.
    pub fn held(self, e: Option<i64>) -> Option<i64>
        ensures { result ≡ held_to (width_of self) e }
    {
        self.exact(e?)
    }

    // The exact results, or that they don't fit the width.
    pub fn neg(self, x: i64) -> Option<i64>
        ensures { result ≡ exactly (width_of self) (neg_ℤ x) }
    {
        self.held(exact_neg(x))
    }

    pub fn add(self, x: i64, y: i64) -> Option<i64>
        ensures { result ≡ exactly (width_of self) (x +ℤ y) }
    {
        self.held(exact_add(x, y))
    }

    pub fn sub(self, x: i64, y: i64) -> Option<i64>
        ensures { result ≡ exactly (width_of self) (x -ℤ y) }
    {
        self.held(exact_sub(x, y))
    }

    pub fn mul(self, x: i64, y: i64) -> Option<i64>
        ensures { result ≡ exactly (width_of self) (x *ℤ y) }
    {
        self.held(exact_mul(x, y))
    }

    pub fn quotient(self, x: i64, d: i64) -> Option<i64>
        ensures { result ≡ exactly (width_of self) (quot_z x d) }
    {
        self.held(exact_quotient(x, d))
    }

    // A natural number, or that it doesn't fit the width.
    pub fn natural(self, n: u64) -> Option<i64>
        ensures { result ≡ exactly (width_of self) (pos n) }
    {
        self.held(exact_of(n))
    }

    // The least common multiple of two natural numbers, or that it doesn't fit the width.
    pub fn lcm(self, a: u64, b: u64) -> Option<i64>
        ensures { result ≡ exactly (width_of self) (pos (divides.lcm a b)) }
    {
        self.held(lcm_u64(a, b))
    }
}
