// The transfers of the two analyses, ported: what an operator, by its number in a sheet, does to intervals and to congruences.
#![tactic(auto)]

ghost use Rattle.refusal.specs.Answer.{told};
ghost use Rattle.std.specs.Prelude.{◌≡◌, ℤ, Ok, Some};
ghost use Rattle.transfer.specs.Operator.{other};
ghost use Rattle.transfer.specs.Order.{by_order};
ghost use Rattle.transfer.specs.Ranges.{interval_binary, interval_unary};
ghost use Rattle.transfer.specs.Spacings.{spacing_on, binary_within, unary_within, congruence_binary, congruence_unary};

use congruence::Congruence;
use interval::{BOOL_RANGE, FALSE_RANGE, Interval, TRUE_RANGE};
use refusal::Refusal;
use std::cmp::Ordering;

// Operators stay numbers: interval_binary promises an answer for every i64; `natural`, since a signed match names no fact.

// The refusal of an operator on which the Rust panics: 4, and 1 for one outside 2 to 15.
fn other(op: i64) -> Refusal
    ensures { result ≡ other op }
{
    if op < 2 || op > 15 {
        Refusal::NotInDomain
    } else {
        Refusal::WouldPanic
    }
}

// What a comparison shows where the left side is less, equal, greater, and where the order isn't known.
#[tactic(auto, unfolding(crate::specs::Order::by_order))]
fn by_order<T: Copy>(order: Option<Ordering>, less: T, equal: T, greater: T, unknown: T) -> T
    ensures { result ≡ by_order order less equal greater unknown }
{
    match order {
        Some(Ordering::Less) => less,
        Some(Ordering::Equal) => equal,
        Some(Ordering::Greater) => greater,
        None => unknown,
    }
}

// ---- intervals: every pair is in the domain

pub fn interval_binary(op: i64, a: Interval, b: Interval) -> Result<Interval, Refusal>
    ensures { told result ≡ interval_binary op a b }
{
    let strict = interval::ported::strict_cmp(a, b);
    let weak = interval::ported::weak_cmp(a, b);
    match whole::natural(op) {
        2 => Ok(interval::ported::add(a, b)),
        3 => interval::ported::sub(a, b),
        4 => Ok(interval::ported::mul(a, b)),
        5 => Ok(Interval::TOP),
        6 => interval::ported::rem(a, b),
        7 => Ok(interval::ported::equals(a, b)),
        8 => Ok(interval::ported::logical_and(a, b)),
        9 => Ok(interval::ported::logical_or(a, b)),
        10 => Ok(by_order(strict, TRUE_RANGE, FALSE_RANGE, FALSE_RANGE, BOOL_RANGE)),
        11 => Ok(by_order(strict, FALSE_RANGE, FALSE_RANGE, TRUE_RANGE, BOOL_RANGE)),
        12 => Ok(by_order(weak, TRUE_RANGE, TRUE_RANGE, FALSE_RANGE, BOOL_RANGE)),
        13 => Ok(by_order(weak, FALSE_RANGE, TRUE_RANGE, TRUE_RANGE, BOOL_RANGE)),
        _ => Err(other(op)),
    }
}

pub fn interval_unary(op: i64, a: Interval) -> Result<Interval, Refusal>
    ensures { told result ≡ interval_unary op a }
{
    match whole::natural(op) {
        14 => Ok(interval::ported::logical_not(a)),
        15 => Ok(a),
        _ => Err(other(op)),
    }
}

// ---- congruences: outside the domain refused by 1, before the operator is looked at

// Short, so that an arm is a line.
const FALSE: Congruence = Congruence::FALSE;

const TRUE: Congruence = Congruence::TRUE;

// What a comparison shows by an order that may be refused; top where it isn't known.
#[tactic(auto, unfolding(crate::specs::Spacings::spacing_on))]
fn spacing_on(
    order: Result<Option<Ordering>, Refusal>,
    less: Congruence,
    equal: Congruence,
    greater: Congruence,
) -> Result<Congruence, Refusal>
    ensures { told result ≡ spacing_on (told order) less equal greater }
{
    Ok(by_order(order?, less, equal, greater, Congruence::TOP))
}

// On values of the domain.
fn binary_within(op: i64, a: Congruence, b: Congruence) -> Result<Congruence, Refusal>
    ensures { told result ≡ binary_within op a b }
{
    let order = congruence::ported::strict_cmp(a, b);
    match whole::natural(op) {
        2 => congruence::ported::add(a, b),
        3 => congruence::ported::sub(a, b),
        4 => congruence::ported::mul(a, b),
        5 => congruence::ported::div(a, b),
        6 => Ok(Congruence::TOP),
        7 => congruence::ported::equals(a, b),
        8 => congruence::ported::logical_and(a, b),
        9 => congruence::ported::logical_or(a, b),
        10 => spacing_on(order, TRUE, FALSE, FALSE),
        11 => spacing_on(order, FALSE, FALSE, TRUE),
        12 => spacing_on(order, TRUE, TRUE, FALSE),
        13 => spacing_on(order, FALSE, TRUE, TRUE),
        _ => Err(other(op)),
    }
}

pub fn congruence_binary(op: i64, a: Congruence, b: Congruence) -> Result<Congruence, Refusal>
    ensures { told result ≡ congruence_binary op a b }
{
    if a.in_domain() && b.in_domain() {
        binary_within(op, a, b)
    } else {
        Err(Refusal::NotInDomain)
    }
}

// On a value of the domain.
fn unary_within(op: i64, a: Congruence) -> Result<Congruence, Refusal>
    ensures { told result ≡ unary_within op a }
{
    match whole::natural(op) {
        14 => congruence::ported::logical_not(a),
        15 => Ok(a),
        _ => Err(other(op)),
    }
}

pub fn congruence_unary(op: i64, a: Congruence) -> Result<Congruence, Refusal>
    ensures { told result ≡ congruence_unary op a }
{
    if a.in_domain() {
        unary_within(op, a)
    } else {
        Err(Refusal::NotInDomain)
    }
}
