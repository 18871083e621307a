// Congruences: the numbers c + m * k. The type, what an answer is, and what every operation asks of its arguments.
#![tactic(auto)]

use number::{gcd_then, leaves};
use refusal::Refusal;
use whole::{Size, floored_remainder};

pub mod mended;
mod number;
pub mod ported;
mod residue;
mod rules;

ghost use Rattle.refusal.specs.Answer.{is, told};
ghost use Rattle.congruence.specs.Answer.{within};
ghost use Rattle.std.specs.Prelude.{◌≡◌, ◌&&◌, ◌||◌, Ok};
ghost use Rattle.congruence.specs.Set.{bottom?, domain?, singles?, form};
ghost use Rattle.whole.specs.Sized.{width_of};
ghost use Rattle.congruence.specs.Numbers.{formula, divides?};
ghost use Rattle.congruence.specs.Ported as spec;

// (c, 0) stands for c alone, (c, m) for all x with x - c divisible by m, and (1, 1) for nothing.
// Any pair is a value here: each operation promises a refusal by 1 outside the domain, so the domain is no invariant.
#[derive(Clone, Copy, PartialEq, Eq, Debug)]
pub struct Congruence {
    pub constant: i64,
    pub modulus: i64,
}

impl Congruence {
    // Every number.
    pub const TOP: Congruence = Congruence {
        constant: 0,
        modulus: 1,
    };

    // No number.
    pub const BOTTOM: Congruence = Congruence {
        constant: 1,
        modulus: 1,
    };

    // What the comparisons and the logic show: 0 is false and 1 is true.
    pub const FALSE: Congruence = Congruence {
        constant: 0,
        modulus: 0,
    };

    pub const TRUE: Congruence = Congruence {
        constant: 1,
        modulus: 0,
    };

    // (c, m): m < 0 is refused by 1, m > 0 with c >= m by 3.
    pub fn from(c: i64, m: i64) -> Result<Congruence, Refusal>
        ensures { told result ≡ spec.from c m }
    {
        if m < 0 {
            return Err(Refusal::NotInDomain);
        }
        held(c, m)
    }

    pub fn is_bottom(self) -> bool
        ensures { result ≡ bottom? self }
    {
        self == Congruence::BOTTOM
    }

    // m = 0, or m > 0 and c < m, or the bottom.
    pub fn in_domain(self) -> bool
        ensures { result ≡ domain? self }
    {
        self.modulus == 0 || (self.modulus > 0 && self.constant < self.modulus) || self.is_bottom()
    }
}

// The assertion of the Rust's `from`: m = 0 or c < m.
fn held(c: i64, m: i64) -> Result<Congruence, Refusal>
    ensures { told result ≡ spec.held c m }
{
    if m == 0 || c < m {
        Ok(Congruence {
            constant: c,
            modulus: m,
        })
    } else {
        Err(Refusal::WouldAssert)
    }
}

// Refused by 1 where the arguments aren't inside the domain.
fn need(inside: bool) -> Result<(), Refusal>
    ensures { told result ≡ within inside (is tt) }
{
    if inside {
        Ok(())
    } else {
        Err(Refusal::NotInDomain)
    }
}

// Both are in the domain.
fn both_in_domain(a: Congruence, b: Congruence) -> bool
    ensures { result ≡ (domain? a && domain? b) }
{
    a.in_domain() && b.in_domain()
}

// One of the two is the bottom.
fn either_bottom(a: Congruence, b: Congruence) -> bool
    ensures { result ≡ (bottom? a || bottom? b) }
{
    a.is_bottom() || b.is_bottom()
}

// The canonical value that stands for the same numbers.
#[tactic(auto, unfolding(crate::specs::Set::form))]
fn form(a: Congruence) -> Congruence
    ensures { result ≡ form a }
{
    if a.is_bottom() {
        return Congruence::BOTTOM;
    }
    Congruence {
        constant: floored_remainder(a.constant, a.modulus),
        modulus: a.modulus,
    }
}

// Both are single numbers.
fn both_single(a: Congruence, b: Congruence) -> bool
    ensures { result ≡ singles? a b }
{
    a.modulus == 0 && b.modulus == 0
}

// The modulus of the product.
#[tactic(auto, unfolding(crate::specs::Numbers::formula))]
fn formula(size: Size, a: Congruence, b: Congruence) -> Option<i64>
    ensures { result ≡ formula (width_of size) a b }
{
    let left = gcd_then(
        size,
        size.mul(a.modulus, b.modulus),
        size.mul(a.modulus, b.constant),
    );
    gcd_then(size, left, size.mul(b.modulus, a.constant))
}

// d divides both numbers of a.
fn divisible(a: Congruence, d: i64) -> bool
    ensures { result ≡ divides? d a }
{
    leaves(a.constant, d, 0) && leaves(a.modulus, d, 0)
}
