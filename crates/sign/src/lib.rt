// The signs: the eight subsets of {negative, zero, positive}.
#![tactic(auto)]

ghost use Rattle.std.specs.Prelude.{◌≡◌};
ghost use Rattle.sign.specs.Index.{index_of};
ghost use Rattle.sign.specs.Set as sets;
ghost use Rattle.sign.specs.Ported as ports;

mod bits;
pub mod mended;
pub mod ported;
mod tables;

use refusal::Refusal;
use std::cmp::Ordering;

// Each sign's comment names what it stands for, as in the Rust.
#[derive(Clone, Copy, PartialEq, Eq, Debug)]
pub enum Sign {
    // Every number.
    Top,
    // No number.
    Bottom,
    Negative,
    Zero,
    Positive,
    // 0 and the positive numbers.
    NonNeg,
    // The negative and the positive numbers.
    NonZero,
    // 0 and the negative numbers.
    NonPos,
}

impl Sign {
    pub const TOP: Sign = Sign::Top;

    pub const BOTTOM: Sign = Sign::Bottom;
}

// Every number: the constant, by a call.
pub fn top() -> Sign
    ensures { result ≡ sets.top }
{
    Sign::TOP
}

// No number.
pub fn bottom() -> Sign
    ensures { result ≡ sets.bottom }
{
    Sign::BOTTOM
}

// The sign's place in the Rust's order.
pub fn index_of(s: Sign) -> usize
    ensures { result ≡ index_of s }
{
    s as usize
}

// The sign of a number.
pub fn of_number(n: i64) -> Sign
    ensures { result ≡ ports.of_number n }
{
    match n.cmp(&0) {
        Ordering::Less => Sign::Negative,
        Ordering::Equal => Sign::Zero,
        Ordering::Greater => Sign::Positive,
    }
}
