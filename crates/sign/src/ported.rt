// The Rust's operations on signs, in its order: the lattice, arithmetic, logic, comparisons. A panic is a refusal.
ghost use Rattle.refusal.specs.Answer.{told};
ghost use Rattle.std.specs.Prelude.{◌≡◌, Bool, Ok, Some};
ghost use Rattle.sign.specs.Sides.{◌inside◌};
ghost use Rattle.sign.specs.Ported as ports;

use crate::bits::{bits_of, of_bits};
use crate::tables::{
    ADDITION, MULTIPLICATION, STRICT_CONCRETE_COMPARISON, WEAK_CONCRETE_COMPARISON,
};
use crate::{Sign, index_of};
use refusal::Refusal;
use std::cmp::Ordering;

// ---- the lattice: the bits of either sign, of both; the order by which bits are common

#[tactic(auto, unfolding(crate::specs::Ported::join))]
pub fn join(a: Sign, b: Sign) -> Sign
    ensures { result ≡ ports.join a b }
{
    of_bits(bits_of(a) | bits_of(b))
}

#[tactic(auto, unfolding(crate::specs::Ported::meet))]
pub fn meet(a: Sign, b: Sign) -> Sign
    ensures { result ≡ ports.meet a b }
{
    of_bits(bits_of(a) & bits_of(b))
}

// By inclusion. An impl of PartialOrd would only call this function, which has the contract.
#[tactic(auto, unfolding(crate::specs::Ported::partial_cmp))]
pub fn partial_cmp(a: Sign, b: Sign) -> Option<Ordering>
    ensures { result ≡ ports.partial_cmp a b }
{
    let i = bits_of(a);
    let j = bits_of(b);
    let common = i & j;
    match (common == i, common == j) {
        (true, true) => Some(Ordering::Equal),
        (true, false) => Some(Ordering::Less),
        (false, true) => Some(Ordering::Greater),
        (false, false) => None,
    }
}

// The default of every lattice: the new value.
pub fn widen(new: Sign, previous: Sign) -> Sign
    ensures { result ≡ ports.widen new previous }
{
    new
}

pub fn narrow(new: Sign, previous: Sign) -> Sign
    ensures { result ≡ ports.narrow new previous }
{
    new
}

// ---- arithmetic

pub fn add(a: Sign, b: Sign) -> Sign
    ensures { result ≡ ports.add a b }
{
    ADDITION[index_of(a)][index_of(b)]
}

#[tactic(auto, unfolding(crate::specs::Ported::neg))]
pub fn neg(a: Sign) -> Sign
    ensures { result ≡ ports.neg a }
{
    match a {
        Sign::Negative => Sign::Positive,
        Sign::Positive => Sign::Negative,
        Sign::NonPos => Sign::NonNeg,
        Sign::NonNeg => Sign::NonPos,
        _ => a,
    }
}

#[tactic(auto, unfolding(crate::specs::Ported::sub))]
pub fn sub(a: Sign, b: Sign) -> Sign
    ensures { result ≡ ports.sub a b }
{
    add(a, neg(b))
}

pub fn mul(a: Sign, b: Sign) -> Sign
    ensures { result ≡ ports.mul a b }
{
    MULTIPLICATION[index_of(a)][index_of(b)]
}

#[tactic(auto, unfolding(crate::specs::Ported::div))]
pub fn div(a: Sign, b: Sign) -> Sign
    ensures { result ≡ ports.div a b }
{
    let product = mul(a, b);
    match product {
        Sign::Positive => Sign::NonNeg,
        Sign::Negative => Sign::NonPos,
        _ => product,
    }
}

#[tactic(auto, unfolding(crate::specs::Ported::rem))]
pub fn rem(a: Sign, b: Sign) -> Sign
    ensures { result ≡ ports.rem a b }
{
    match a {
        Sign::NonNeg | Sign::Positive => Sign::NonNeg,
        Sign::NonPos | Sign::Negative => Sign::NonPos,
        Sign::Zero => Sign::Zero,
        Sign::Bottom => Sign::Bottom,
        _ => Sign::Top,
    }
}

// ---- logic

// The Rust's a <= b.
#[tactic(auto, unfolding(crate::specs::Ported::partial_cmp))]
pub(crate) fn at_most(a: Sign, b: Sign) -> bool
    ensures { result ≡ (a inside b) }
{
    partial_cmp(a, b).is_some_and(Ordering::is_le)
}

fn surely_equal(a: Sign, b: Sign, is_bool: bool) -> bool
    ensures { result ≡ ports.surely a b is_bool }
{
    match (a, b) {
        (Sign::Positive, Sign::Positive) => is_bool,
        (Sign::Zero, Sign::Zero) => true,
        _ => false,
    }
}

// is_bool: both operands are 0 or 1, so that two positive ones are equal.
#[tactic(auto, unfolding(crate::specs::Ported::logical_eq))]
pub fn logical_eq(a: Sign, b: Sign, is_bool: bool) -> Sign
    ensures { result ≡ ports.logical_eq a b is_bool }
{
    if surely_equal(a, b, is_bool) {
        Sign::Positive
    } else if at_most(a, b) || at_most(b, a) {
        Sign::NonNeg
    } else {
        Sign::Zero
    }
}

// A table of pairs, as logical_or's: each reads as the Rust does.
#[tactic(auto, unfolding(crate::specs::Ported::logical_and))]
pub fn logical_and(a: Sign, b: Sign) -> Sign
    ensures { result ≡ ports.logical_and a b }
{
    match (a, b) {
        (Sign::Zero, _) | (_, Sign::Zero) => Sign::Zero,
        (Sign::Positive, Sign::Positive) => Sign::Positive,
        _ => Sign::NonNeg,
    }
}

#[tactic(auto, unfolding(crate::specs::Ported::logical_or))]
pub fn logical_or(a: Sign, b: Sign) -> Sign
    ensures { result ≡ ports.logical_or a b }
{
    match (a, b) {
        (Sign::Positive, _) | (_, Sign::Positive) => Sign::Positive,
        (Sign::Zero, Sign::Zero) => Sign::Zero,
        _ => Sign::NonNeg,
    }
}

// Refused on the five signs on which the Rust panics.
#[tactic(auto, unfolding(crate::specs::Ported::logical_not))]
pub fn logical_not(a: Sign) -> Result<Sign, Refusal>
    ensures { told result ≡ ports.logical_not a }
{
    match a {
        Sign::NonNeg => Ok(Sign::NonNeg),
        Sign::Positive => Ok(Sign::Zero),
        Sign::Zero => Ok(Sign::Positive),
        _ => Err(Refusal::WouldPanic),
    }
}

// ---- how their numbers compare

pub fn strict_cmp(a: Sign, b: Sign) -> Option<Ordering>
    ensures { result ≡ ports.strict_cmp a b }
{
    STRICT_CONCRETE_COMPARISON[index_of(a)][index_of(b)]
}

pub fn weak_cmp(a: Sign, b: Sign) -> Option<Ordering>
    ensures { result ≡ ports.weak_cmp a b }
{
    WEAK_CONCRETE_COMPARISON[index_of(a)][index_of(b)]
}
