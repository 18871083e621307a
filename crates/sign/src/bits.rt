// A sign by three bits: 4 for the negative side, 2 for 0, 1 for the positive side.
ghost use Rattle.std.specs.Prelude.{◌≡◌};
ghost use Rattle.sign.specs.Bits.{bits_of, of_bits};

use crate::Sign;

// By a match: the bits aren't the variants' numbers, which are the Rust's order.
pub(crate) fn bits_of(s: Sign) -> u8
    ensures { result ≡ bits_of s }
{
    match s {
        Sign::Top => 7,
        Sign::Bottom => 0,
        Sign::Negative => 4,
        Sign::Zero => 2,
        Sign::Positive => 1,
        Sign::NonNeg => 3,
        Sign::NonZero => 5,
        Sign::NonPos => 6,
    }
}

// The sign with these bits: the negative side, 0, the positive side.
pub(crate) fn of_bits(bits: u8) -> Sign
    ensures { result ≡ of_bits bits }
{
    match (bits & 4 != 0, bits & 2 != 0, bits & 1 != 0) {
        (true, true, true) => Sign::Top,
        (true, true, false) => Sign::NonPos,
        (true, false, true) => Sign::NonZero,
        (true, false, false) => Sign::Negative,
        (false, true, true) => Sign::NonNeg,
        (false, true, false) => Sign::Zero,
        (false, false, true) => Sign::Positive,
        (false, false, false) => Sign::Bottom,
    }
}
