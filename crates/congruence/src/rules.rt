// The mended rules on canonical values, at a size of numbers: lattice, arithmetic, comparisons. Their answers are canonical.
ghost use Rattle.std.specs.Prelude.{◌≡◌, pos, nat_abs, ◌+ℤ◌, ◌-ℤ◌, ◌<ℤ◌};
ghost use Rattle.whole.specs.Choice.{pick};
ghost use Rattle.whole.specs.Test.{◌≤?◌, ◌<?◌, truth};
ghost use Rattle.congruence.specs.Set.{cong, top, singles?};
ghost use Rattle.whole.specs.Divides.{gcd, floor_rem};
ghost use Rattle.whole.specs.Sized.{width_of};
ghost use Rattle.congruence.specs.Mended as spec;

use crate::number::{abs_then, alike};
use crate::residue::overlap;
use crate::{Congruence, both_single, divisible, either_bottom, formula};
use std::cmp::Ordering;
use whole::{Size, floored_remainder, gcd_u64, magnitude};

// ---- what the rules are made of

// The gcd of the two moduli.
fn moduli_gcd(a: Congruence, b: Congruence) -> u64
    ensures { result ≡ gcd (nat_abs a.modulus) (nat_abs b.modulus) }
{
    gcd_u64(magnitude(a.modulus), magnitude(b.modulus))
}

// z is a number of a, where a isn't bottom.
fn has(a: Congruence, z: i64) -> bool
    ensures { result ≡ spec.has? a z }
{
    alike(magnitude(a.modulus), z, a.constant)
}

// The class of z modulo g, or what is shown instead where one of the two doesn't fit.
#[tactic(auto, unfolding(crate::specs::Mended::result_of))]
fn result_of(z: Option<i64>, g: Option<i64>, over: Congruence) -> Congruence
    ensures { result ≡ spec.result_of z g over }
{
    let (Some(k), Some(n)) = (z, g) else {
        return over;
    };
    Congruence {
        constant: floored_remainder(k, n),
        modulus: n,
    }
}

#[tactic(auto, unfolding(crate::specs::Mended::class_of))]
fn class_of(size: Size, z: i64, m: u64) -> Congruence
    ensures { result ≡ spec.class_of (width_of size) z m }
{
    result_of(Some(z), size.natural(m), Congruence::TOP)
}

#[tactic(auto, unfolding(crate::specs::Mended::only_of))]
fn only_of(z: Option<i64>) -> Congruence
    ensures { result ≡ spec.only_of z }
{
    let Some(k) = z else {
        return Congruence::BOTTOM;
    };
    Congruence {
        constant: k,
        modulus: 0,
    }
}

// x + y modulo m, from 0 up: no sum of the way is m or more.
fn sum_modulo(x: i64, y: i64, m: i64) -> i64
    requires { pos 0 <ℤ m }
    ensures { result ≡ floor_rem (x +ℤ y) m }
{
    let a = floored_remainder(x, m);
    let b = floored_remainder(y, m);
    if a < m - b { a + b } else { a - (m - b) }
}

// x - y modulo m, from 0 up.
fn difference_modulo(x: i64, y: i64, m: i64) -> i64
    requires { pos 0 <ℤ m }
    ensures { result ≡ floor_rem (x -ℤ y) m }
{
    let a = floored_remainder(x, m);
    let b = floored_remainder(y, m);
    if b <= a { a - b } else { a + (m - b) }
}

// The numbers x + y modulo m.
fn sum_class(size: Size, x: i64, y: i64, m: u64) -> Congruence
    ensures { result ≡ spec.exact_of (width_of size) (x +ℤ y) m }
{
    if m == 0 {
        return only_of(size.add(x, y));
    }
    let Some(k) = size.natural(m) else {
        return Congruence::TOP;
    };
    Congruence {
        constant: sum_modulo(x, y, k),
        modulus: k,
    }
}

// The numbers x - y modulo m. Not one with sum_class: the two wrap by different tests, and a closure for them is no plainer.
fn difference_class(size: Size, x: i64, y: i64, m: u64) -> Congruence
    ensures { result ≡ spec.exact_of (width_of size) (x -ℤ y) m }
{
    if m == 0 {
        return only_of(size.sub(x, y));
    }
    let Some(k) = size.natural(m) else {
        return Congruence::TOP;
    };
    Congruence {
        constant: difference_modulo(x, y, k),
        modulus: k,
    }
}

// ---- lattice

pub fn apart(a: Congruence, b: Congruence) -> bool
    ensures { result ≡ spec.apart? a b }
{
    either_bottom(a, b) || !alike(moduli_gcd(a, b), a.constant, b.constant)
}

fn inside(a: Congruence, b: Congruence) -> bool
    ensures { result ≡ spec.inside? a b }
{
    if a.is_bottom() {
        return true;
    }
    if b.is_bottom() {
        return false;
    }
    has(b, a.constant) && alike(magnitude(b.modulus), a.modulus, 0)
}

#[tactic(auto, unfolding(crate::specs::Mended::inclusion))]
pub fn inclusion(a: Congruence, b: Congruence) -> Option<Ordering>
    ensures { result ≡ spec.inclusion a b }
{
    match (inside(a, b), inside(b, a)) {
        (true, true) => Some(Ordering::Equal),
        (true, false) => Some(Ordering::Less),
        (false, true) => Some(Ordering::Greater),
        (false, false) => None,
    }
}

#[tactic(auto, unfolding(crate::specs::Mended::joint))]
pub fn joint(size: Size, a: Congruence, b: Congruence) -> Congruence
    ensures { result ≡ spec.joint (width_of size) a b }
{
    if a.is_bottom() {
        return b;
    }
    if b.is_bottom() {
        return a;
    }
    let d = a.constant.abs_diff(b.constant);
    class_of(size, a.constant, gcd_u64(moduli_gcd(a, b), d))
}

pub fn common(size: Size, a: Congruence, b: Congruence) -> Congruence
    ensures { result ≡ spec.common (width_of size) a b }
{
    if either_bottom(a, b) {
        return Congruence::BOTTOM;
    }
    if a.modulus == 0 {
        return if has(b, a.constant) {
            a
        } else {
            Congruence::BOTTOM
        };
    }
    if b.modulus == 0 {
        return if has(a, b.constant) {
            b
        } else {
            Congruence::BOTTOM
        };
    }
    overlap(size, a, b)
}

// ---- arithmetic

#[tactic(auto, unfolding(crate::specs::Mended::negative))]
pub fn negative(size: Size, a: Congruence) -> Congruence
    ensures { result ≡ spec.negative (width_of size) a }
{
    if a.is_bottom() {
        return Congruence::BOTTOM;
    }
    difference_class(size, 0, a.constant, magnitude(a.modulus))
}

// Not one with difference: they share no more than the gcd and the bottom.
#[tactic(auto, unfolding(crate::specs::Mended::sum, crate::specs::Mended::beside))]
pub fn sum(size: Size, a: Congruence, b: Congruence) -> Congruence
    ensures { result ≡ spec.sum (width_of size) a b }
{
    if either_bottom(a, b) {
        return Congruence::BOTTOM;
    }
    sum_class(size, a.constant, b.constant, moduli_gcd(a, b))
}

#[tactic(auto, unfolding(crate::specs::Mended::difference, crate::specs::Mended::beside))]
pub fn difference(size: Size, a: Congruence, b: Congruence) -> Congruence
    ensures { result ≡ spec.difference (width_of size) a b }
{
    if either_bottom(a, b) {
        return Congruence::BOTTOM;
    }
    difference_class(size, a.constant, b.constant, moduli_gcd(a, b))
}

// What is shown where a number of the product's formula doesn't fit.
#[tactic(auto, unfolding(crate::specs::Mended::over))]
fn over(a: Congruence, b: Congruence) -> Congruence
    ensures { result ≡ spec.over a b }
{
    if both_single(a, b) {
        Congruence::BOTTOM
    } else {
        Congruence::TOP
    }
}

#[tactic(auto, unfolding(crate::specs::Mended::product, crate::specs::Mended::beside))]
pub fn product(size: Size, a: Congruence, b: Congruence) -> Congruence
    ensures { result ≡ spec.product (width_of size) a b }
{
    if either_bottom(a, b) {
        return Congruence::BOTTOM;
    }
    let g = formula(size, a, b);
    result_of(size.mul(a.constant, b.constant), g, over(a, b))
}

#[tactic(auto, unfolding(crate::specs::Mended::by_number))]
fn by_number(size: Size, a: Congruence, d: i64) -> Congruence
    ensures { result ≡ spec.by_number (width_of size) a d }
{
    if divisible(a, d) {
        let q = size.quotient(a.constant, d);
        result_of(
            q,
            abs_then(size, size.quotient(a.modulus, d)),
            Congruence::BOTTOM,
        )
    } else {
        Congruence::TOP
    }
}

#[tactic(auto, unfolding(crate::specs::Mended::quotient, crate::specs::Mended::beside))]
pub fn quotient_class(size: Size, a: Congruence, b: Congruence) -> Congruence
    ensures { result ≡ spec.quotient (width_of size) a b }
{
    if either_bottom(a, b) {
        return Congruence::BOTTOM;
    }
    if b.modulus != 0 {
        Congruence::TOP
    } else if b.constant == 0 {
        Congruence::BOTTOM
    } else {
        by_number(size, a, b.constant)
    }
}

// ---- comparisons

#[tactic(auto, unfolding(crate::specs::Mended::equality))]
pub fn equality(a: Congruence, b: Congruence) -> Congruence
    ensures { result ≡ spec.equality a b }
{
    if apart(a, b) {
        Congruence::FALSE
    } else if both_single(a, b) {
        Congruence::TRUE
    } else {
        Congruence::TOP
    }
}

// What a comparison of two single numbers shows, by whether it holds of them; all else is open.
fn compared(a: Congruence, b: Congruence, holds: bool) -> Congruence
    ensures { result ≡ pick (singles? a b) (cong (truth holds) (pos 0)) top }
{
    if !both_single(a, b) {
        Congruence::TOP
    } else if holds {
        Congruence::TRUE
    } else {
        Congruence::FALSE
    }
}

pub fn below(a: Congruence, b: Congruence) -> Congruence
    ensures { result ≡ spec.comparison ◌<?◌ a b }
{
    compared(a, b, a.constant < b.constant)
}

pub fn at_most(a: Congruence, b: Congruence) -> Congruence
    ensures { result ≡ spec.comparison ◌≤?◌ a b }
{
    compared(a, b, a.constant <= b.constant)
}
