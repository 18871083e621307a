// Four of the Rust's tables: a row for the left sign, a column for the right one, both in the order of index_of.
// Bot, Neg, Pos and LESS, SAME, MORE are short, so that a row is a line.
use crate::Sign;
use crate::Sign::{
    Bottom as Bot, Negative as Neg, NonNeg, NonPos, NonZero, Positive as Pos, Top, Zero,
};
use std::cmp::Ordering;

const LESS: Option<Ordering> = Some(Ordering::Less);

const SAME: Option<Ordering> = Some(Ordering::Equal);

const MORE: Option<Ordering> = Some(Ordering::Greater);

// The sides that sums reach.
pub const ADDITION: [[Sign; 8]; 8] = [
    // left/right   Top, Bot, Neg, Zero, Pos, NonNeg, NonZero, NonPos
    [/* Top      */ Top, Bot, Top, Top, Top, Top, Top, Top],
    [/* Bottom   */ Bot, Bot, Bot, Bot, Bot, Bot, Bot, Bot],
    [/* Negative */ Top, Bot, Neg, Neg, Top, Top, Top, Neg],
    [/* Zero     */ Top, Bot, Neg, Zero, Pos, NonNeg, NonZero, NonPos],
    [/* Positive */ Top, Bot, Top, Pos, Pos, Pos, Top, Top],
    [/* NonNeg   */ Top, Bot, Top, NonNeg, Pos, NonNeg, Top, Top],
    [/* NonZero  */ Top, Bot, Top, NonZero, Top, Top, Top, Top],
    [/* NonPos   */ Top, Bot, Neg, NonPos, Top, Top, Top, NonPos],
];

// The sides that products reach.
pub const MULTIPLICATION: [[Sign; 8]; 8] = [
    // left/right   Top, Bot, Neg, Zero, Pos, NonNeg, NonZero, NonPos
    [/* Top      */ Top, Bot, Top, Zero, Top, Top, Top, Top],
    [/* Bottom   */ Bot, Bot, Bot, Bot, Bot, Bot, Bot, Bot],
    [/* Negative */ Top, Bot, Pos, Zero, Neg, NonPos, NonZero, NonNeg],
    [/* Zero     */ Zero, Bot, Zero, Zero, Zero, Zero, Zero, Zero],
    [/* Positive */ Top, Bot, Neg, Zero, Pos, NonNeg, NonZero, NonPos],
    [/* NonNeg   */ Top, Bot, NonPos, Zero, NonNeg, NonNeg, Top, NonPos],
    [/* NonZero  */ Top, Bot, NonZero, Zero, NonZero, Top, NonZero, Top],
    [/* NonPos   */ Top, Bot, NonNeg, Zero, NonPos, NonPos, Top, NonNeg],
];

// How each number of the left compares with each one of the right, if all alike.
pub const STRICT_CONCRETE_COMPARISON: [[Option<Ordering>; 8]; 8] = [
    // left/right   Top,  Bot,  Neg,  Zero, Pos,  NonN, NonZ, NonP
    [/* Top      */ None, None, None, None, None, None, None, None],
    [/* Bottom   */ None, None, None, None, None, None, None, None],
    [/* Negative */ None, None, None, LESS, LESS, LESS, None, None],
    [/* Zero     */ None, None, MORE, SAME, LESS, None, None, None],
    [/* Positive */ None, None, MORE, MORE, None, None, None, MORE],
    [/* NonNeg   */ None, None, MORE, None, None, None, None, None],
    [/* NonZero  */ None, None, None, None, None, None, None, None],
    [/* NonPos   */ None, None, None, None, LESS, None, None, None],
];

// The same with equal numbers let in; (Zero, NonNeg) and (Zero, NonPos) stand exchanged, as in the Rust.
pub const WEAK_CONCRETE_COMPARISON: [[Option<Ordering>; 8]; 8] = [
    // left/right   Top,  Bot,  Neg,  Zero, Pos,  NonN, NonZ, NonP
    [/* Top      */ None, None, None, None, None, None, None, None],
    [/* Bottom   */ None, None, None, None, None, None, None, None],
    [/* Negative */ None, None, None, LESS, LESS, LESS, None, None],
    [/* Zero     */ None, None, MORE, SAME, LESS, MORE, None, LESS],
    [/* Positive */ None, None, MORE, MORE, None, None, None, MORE],
    [/* NonNeg   */ None, None, MORE, MORE, None, None, None, MORE],
    [/* NonZero  */ None, None, None, None, None, None, None, None],
    [/* NonPos   */ None, None, None, LESS, LESS, LESS, None, None],
];
