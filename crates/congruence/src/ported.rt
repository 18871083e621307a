// The Rust's operations on congruences: its names and its order of evaluation, a panic as a refusal. Lattice, arithmetic, comparisons.
ghost use Rattle.std.specs.Prelude.{◌≡◌, Ok, Some};
ghost use Rattle.refusal.specs.Answer.{is, told};
ghost use Rattle.congruence.specs.Set.{bottom};
ghost use Rattle.congruence.specs.Ported as spec;

use crate::number::{abs_then, gcd_then, leaves};
use crate::{
    Congruence, both_in_domain, both_single, divisible, either_bottom, formula, held, need,
};
use refusal::Refusal;
use std::cmp::Ordering;
use whole::{
    Size, exact_add, exact_mul, exact_neg, exact_quotient, exact_sub, gcd, lcm, remainder,
};

// ---- what the operations are made of

fn normalize(c: i64, m: i64) -> Congruence
    ensures { result ≡ spec.normalize c m }
{
    if m == 0 {
        return Congruence {
            constant: c,
            modulus: m,
        };
    }
    Congruence {
        constant: remainder(c, m),
        modulus: m,
    }
}

#[tactic(auto, unfolding(crate::specs::Ported::made))]
fn made(c: Option<i64>, m: Option<i64>) -> Result<Congruence, Refusal>
    ensures { told result ≡ spec.made c m }
{
    let n = m.ok_or(Refusal::DoesNotFit)?;
    let k = c.ok_or(Refusal::DoesNotFit)?;
    Ok(normalize(k, n))
}

#[tactic(auto, unfolding(crate::specs::Ported::asserted))]
fn asserted(c: Option<i64>, m: Option<i64>) -> Result<Congruence, Refusal>
    ensures { told result ≡ spec.asserted c m }
{
    let (Some(k), Some(n)) = (c, m) else {
        return Err(Refusal::DoesNotFit);
    };
    held(k, n)
}

// d % g != 0.
#[tactic(auto, unfolding(crate::specs::Ported::indivisible))]
fn indivisible(d: Option<i64>, g: Option<i64>) -> Result<bool, Refusal>
    ensures { told result ≡ spec.indivisible d g }
{
    let (Some(k), Some(n)) = (d, g) else {
        return Err(Refusal::DoesNotFit);
    };
    Ok(!leaves(k, n, 0))
}

#[tactic(auto, unfolding(crate::specs::Ported::on_truth))]
fn on_truth(
    t: Result<bool, Refusal>,
    yes: Result<Congruence, Refusal>,
    no: Result<Congruence, Refusal>,
) -> Result<Congruence, Refusal>
    ensures { told result ≡ spec.on_truth (told t) (told yes) (told no) }
{
    if t? { yes } else { no }
}

// It is the single number k.
fn only(a: Congruence, k: i64) -> bool
    ensures { result ≡ spec.only? a k }
{
    a.modulus == 0 && a.constant == k
}

// ---- lattice

fn below(a: Congruence, b: Congruence) -> bool
    ensures { result ≡ spec.below? a b }
{
    if b.modulus == 0 {
        return false;
    }
    leaves(a.modulus, b.modulus, 0) && leaves(a.constant, b.modulus, b.constant)
}

fn ordered(a: Congruence, b: Congruence) -> Option<Ordering>
    ensures { result ≡ spec.ordered a b }
{
    if a == b {
        return Some(Ordering::Equal);
    }
    if a.is_bottom() {
        return Some(Ordering::Less);
    }
    if b.is_bottom() {
        return Some(Ordering::Greater);
    }
    if below(a, b) {
        return Some(Ordering::Less);
    }
    if below(b, a) {
        Some(Ordering::Greater)
    } else {
        None
    }
}

// No impl of PartialOrd: it refuses by 1, which no order says.
pub fn partial_cmp(a: Congruence, b: Congruence) -> Result<Option<Ordering>, Refusal>
    ensures { told result ≡ spec.partial_cmp a b }
{
    need(both_in_domain(a, b))?;
    Ok(ordered(a, b))
}

#[tactic(auto, unfolding(crate::specs::Ported::joined))]
fn joined(a: Congruence, b: Congruence) -> Result<Congruence, Refusal>
    ensures { told result ≡ spec.joined a b }
{
    if a.is_bottom() {
        return Ok(b);
    }
    if b.is_bottom() {
        return Ok(a);
    }
    let g = gcd(a.modulus, b.modulus);
    let d = abs_then(Size::B64, exact_sub(a.constant, b.constant));
    made(Some(a.constant), gcd_then(Size::B64, g, d))
}

pub fn join(a: Congruence, b: Congruence) -> Result<Congruence, Refusal>
    ensures { told result ≡ spec.join a b }
{
    need(both_in_domain(a, b))?;
    joined(a, b)
}

#[tactic(auto, unfolding(crate::specs::Ported::reduced))]
fn reduced(c: i64, m: Option<i64>) -> Result<Congruence, Refusal>
    ensures { told result ≡ spec.reduced c m }
{
    let n = m.ok_or(Refusal::DoesNotFit)?;
    Ok(normalize(remainder(c, n), n))
}

// The left constant modulo the lcm, unless the classes are apart. The lcm isn't worked out where they are.
#[tactic(auto, unfolding(crate::specs::Ported::on_truth))]
fn met_unless(
    apart: Result<bool, Refusal>,
    a: Congruence,
    b: Congruence,
) -> Result<Congruence, Refusal>
    ensures { told result ≡ spec.on_truth (told apart) (is bottom) (spec.reduced a.constant (spec.lcm_of a.modulus b.modulus)) }
{
    if apart? {
        return Ok(Congruence::BOTTOM);
    }
    reduced(a.constant, lcm(a.modulus, b.modulus))
}

// Two classes: apart if the gcd doesn't divide the difference of the constants.
#[tactic(auto, unfolding(crate::specs::Ported::met_classes))]
fn met_classes(a: Congruence, b: Congruence) -> Result<Congruence, Refusal>
    ensures { told result ≡ spec.met_classes a b }
{
    let g = gcd(a.modulus, b.modulus);
    let d = abs_then(Size::B64, exact_sub(a.constant, b.constant));
    met_unless(indivisible(d, g), a, b)
}

fn met(a: Congruence, b: Congruence) -> Result<Congruence, Refusal>
    ensures { told result ≡ spec.met a b }
{
    let nothing = Ok(Congruence::BOTTOM);
    if either_bottom(a, b) {
        return nothing;
    }
    if a.modulus == 0 {
        return on_truth(separated(a, b), nothing, Ok(a));
    }
    if b.modulus == 0 {
        return on_truth(separated(a, b), nothing, Ok(b));
    }
    met_classes(a, b)
}

pub fn meet(a: Congruence, b: Congruence) -> Result<Congruence, Refusal>
    ensures { told result ≡ spec.meet a b }
{
    need(both_in_domain(a, b))?;
    met(a, b)
}

// The default: the new value alone.
pub fn widen(new: Congruence, previous: Congruence) -> Result<Congruence, Refusal>
    ensures { told result ≡ spec.widen new previous }
{
    need(both_in_domain(new, previous))?;
    Ok(new)
}

fn narrowed(new: Congruence, previous: Congruence) -> Congruence
    ensures { result ≡ spec.narrowed new previous }
{
    if previous == Congruence::TOP {
        new
    } else {
        previous
    }
}

pub fn narrow(new: Congruence, previous: Congruence) -> Result<Congruence, Refusal>
    ensures { told result ≡ spec.narrow new previous }
{
    need(both_in_domain(new, previous))?;
    Ok(narrowed(new, previous))
}

// ---- arithmetic

#[tactic(auto, unfolding(crate::specs::Ported::negated))]
fn negated(a: Congruence) -> Result<Congruence, Refusal>
    ensures { told result ≡ spec.negated a }
{
    if a.is_bottom() {
        return Ok(a);
    }
    asserted(exact_neg(a.constant), Some(a.modulus))
}

pub fn neg(a: Congruence) -> Result<Congruence, Refusal>
    ensures { told result ≡ spec.neg a }
{
    need(a.in_domain())?;
    negated(a)
}

#[tactic(auto, unfolding(crate::specs::Ported::added))]
fn added(a: Congruence, b: Congruence) -> Result<Congruence, Refusal>
    ensures { told result ≡ spec.added a b }
{
    if either_bottom(a, b) {
        return Ok(Congruence::BOTTOM);
    }
    let g = gcd(a.modulus, b.modulus);
    made(exact_add(a.constant, b.constant), g)
}

pub fn add(a: Congruence, b: Congruence) -> Result<Congruence, Refusal>
    ensures { told result ≡ spec.add a b }
{
    need(both_in_domain(a, b))?;
    added(a, b)
}

// a + (-b): the negation goes first, even beside the bottom.
#[tactic(auto, unfolding(crate::specs::Ported::subtracted, crate::specs::Ported::added_to))]
fn subtracted(a: Congruence, b: Congruence) -> Result<Congruence, Refusal>
    ensures { told result ≡ spec.subtracted a b }
{
    added(a, negated(b)?)
}

pub fn sub(a: Congruence, b: Congruence) -> Result<Congruence, Refusal>
    ensures { told result ≡ spec.sub a b }
{
    need(both_in_domain(a, b))?;
    subtracted(a, b)
}

#[tactic(auto, unfolding(crate::specs::Ported::multiplied))]
fn multiplied(a: Congruence, b: Congruence) -> Result<Congruence, Refusal>
    ensures { told result ≡ spec.multiplied a b }
{
    if either_bottom(a, b) {
        return Ok(Congruence::BOTTOM);
    }
    let g = formula(Size::B64, a, b);
    made(exact_mul(a.constant, b.constant), g)
}

pub fn mul(a: Congruence, b: Congruence) -> Result<Congruence, Refusal>
    ensures { told result ≡ spec.mul a b }
{
    need(both_in_domain(a, b))?;
    multiplied(a, b)
}

#[tactic(auto, unfolding(crate::specs::Ported::divided_by))]
fn divided_by(a: Congruence, d: i64) -> Result<Congruence, Refusal>
    ensures { told result ≡ spec.divided_by a d }
{
    if divisible(a, d) {
        asserted(exact_quotient(a.constant, d), exact_quotient(a.modulus, d))
    } else {
        Ok(Congruence::TOP)
    }
}

#[tactic(auto, unfolding(crate::specs::Ported::divided))]
fn divided(a: Congruence, b: Congruence) -> Result<Congruence, Refusal>
    ensures { told result ≡ spec.divided a b }
{
    if either_bottom(a, b) || only(b, 0) {
        return Ok(Congruence::BOTTOM);
    }
    if b.modulus == 0 {
        divided_by(a, b.constant)
    } else {
        Ok(Congruence::TOP)
    }
}

pub fn div(a: Congruence, b: Congruence) -> Result<Congruence, Refusal>
    ensures { told result ≡ spec.div a b }
{
    need(both_in_domain(a, b))?;
    divided(a, b)
}

// ---- comparisons and logic

pub fn singleton(a: Congruence) -> Result<Option<i64>, Refusal>
    ensures { told result ≡ spec.singleton a }
{
    need(a.in_domain())?;
    Ok((a.modulus == 0).then_some(a.constant))
}

fn separated(a: Congruence, b: Congruence) -> Result<bool, Refusal>
    ensures { told result ≡ spec.separated a b }
{
    if a.modulus == 0 {
        return if b.modulus == 0 {
            Ok(a.constant != b.constant)
        } else {
            Ok(!leaves(a.constant, b.modulus, b.constant))
        };
    }
    if b.modulus == 0 {
        return Ok(!leaves(b.constant, a.modulus, a.constant));
    }
    let g = gcd(a.modulus, b.modulus);
    indivisible(exact_sub(a.constant, b.constant), g)
}

pub fn disjoint(a: Congruence, b: Congruence) -> Result<bool, Refusal>
    ensures { told result ≡ spec.disjoint a b }
{
    need(both_in_domain(a, b))?;
    separated(a, b)
}

#[tactic(auto, unfolding(crate::specs::Ported::equated))]
fn equated(a: Congruence, b: Congruence) -> Result<Congruence, Refusal>
    ensures { told result ≡ spec.equated a b }
{
    on_truth(separated(a, b), Ok(Congruence::FALSE), Ok(one_number(a, b)))
}

// 1 for one and the same single number, else top.
fn one_number(a: Congruence, b: Congruence) -> Congruence
    ensures { result ≡ spec.one_number a b }
{
    if a.modulus == 0 && only(b, a.constant) {
        Congruence::TRUE
    } else {
        Congruence::TOP
    }
}

pub fn equals(a: Congruence, b: Congruence) -> Result<Congruence, Refusal>
    ensures { told result ≡ spec.equals a b }
{
    need(both_in_domain(a, b))?;
    equated(a, b)
}

// Not one with disjoined: by a parameter for 0 and 1 neither would read as its definition does.
#[tactic(auto, unfolding(crate::specs::Ported::conjoined))]
fn conjoined(a: Congruence, b: Congruence) -> Congruence
    ensures { result ≡ spec.conjoined a b }
{
    if only(a, 0) || only(b, 0) {
        Congruence::FALSE
    } else if only(a, 1) && only(b, 1) {
        Congruence::TRUE
    } else {
        Congruence::TOP
    }
}

pub fn logical_and(a: Congruence, b: Congruence) -> Result<Congruence, Refusal>
    ensures { told result ≡ spec.logical_and a b }
{
    need(both_in_domain(a, b))?;
    Ok(conjoined(a, b))
}

#[tactic(auto, unfolding(crate::specs::Ported::disjoined))]
fn disjoined(a: Congruence, b: Congruence) -> Congruence
    ensures { result ≡ spec.disjoined a b }
{
    if only(a, 1) || only(b, 1) {
        Congruence::TRUE
    } else if only(a, 0) && only(b, 0) {
        Congruence::FALSE
    } else {
        Congruence::TOP
    }
}

pub fn logical_or(a: Congruence, b: Congruence) -> Result<Congruence, Refusal>
    ensures { told result ≡ spec.logical_or a b }
{
    need(both_in_domain(a, b))?;
    Ok(disjoined(a, b))
}

#[tactic(auto, unfolding(crate::specs::Ported::inverted))]
fn inverted(a: Congruence) -> Congruence
    ensures { result ≡ spec.inverted a }
{
    if only(a, 1) {
        Congruence::FALSE
    } else if only(a, 0) {
        Congruence::TRUE
    } else {
        Congruence::TOP
    }
}

pub fn logical_not(a: Congruence) -> Result<Congruence, Refusal>
    ensures { told result ≡ spec.logical_not a }
{
    need(a.in_domain())?;
    Ok(inverted(a))
}

fn compared(a: Congruence, b: Congruence) -> Option<Ordering>
    ensures { result ≡ spec.compared a b }
{
    if !both_single(a, b) {
        return None;
    }
    Some(a.constant.cmp(&b.constant))
}

pub fn strict_cmp(a: Congruence, b: Congruence) -> Result<Option<Ordering>, Refusal>
    ensures { told result ≡ spec.strict_cmp a b }
{
    need(both_in_domain(a, b))?;
    Ok(compared(a, b))
}
