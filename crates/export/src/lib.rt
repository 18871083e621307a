// What Rust or C calls, with the symbols of export_c: numbers and lent slices, and nothing asked but what the language asks of lent slices.
// A call returns a status, 0 where its value was put, else the number of the refusal. A refusal of the operation goes before 16.
// Numbers for values and statuses, a function for each symbol and its room beside: the interface of C, which calls these by export_c.
#![tactic(auto)]

ghost use Rattle.std.specs.Prelude.{[], ◌∷◌, pos, nat_abs};
ghost use Rattle.std.specs.Int.{w64};
ghost use Rattle.whole.specs.Divides as divides;
ghost use Rattle.whole.specs.Exact.{exactly};
ghost use Rattle.export.specs.Call.{Leaves, put, number};

use refusal::Refusal;

pub mod ranges; // ranges.rt: intervals, two numbers each
pub mod spacings; // spacings.rt: congruences, two numbers each
pub mod sheets; // sheets.rt: the check and the run of a sheet's bytes

// Puts a number into the lent room.
fn put_one(room: &mut [i64], x: i64) -> u8
    ensures { Leaves (put (x ∷ [])) room.old result room.new }
{
    if room.len() < 1 {
        return Refusal::NoRoom.number();
    }
    room[0] = x;
    0
}

// Puts two numbers into the lent room.
fn put_two(room: &mut [i64], x: i64, y: i64) -> u8
    ensures { Leaves (put (x ∷ y ∷ [])) room.old result room.new }
{
    if room.len() < 2 {
        return Refusal::NoRoom.number();
    }
    room[0] = x;
    room[1] = y;
    0
}

// The greatest common divisor of the absolute values, into room for one number.
pub fn tunisaypa_gcd(a: i64, b: i64, room: &mut [i64]) -> u8
    ensures { Leaves (number (exactly w64 (pos (divides.gcd (nat_abs a) (nat_abs b))))) room.old result room.new }
{
    match whole::gcd(a, b) {
        Some(g) => put_one(room, g),
        None => Refusal::DoesNotFit.number(),
    }
}
