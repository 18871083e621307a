// What C and Rust link: each function of the crate `export` under its own name, with its own clause.
// Numbers for values, statuses and rooms, and one function for each name: C's interface.
#![tactic(auto)]

ghost use Rattle.std.specs.Prelude.{pos, nat_abs};
ghost use Rattle.std.specs.Int.{w64};
ghost use Rattle.whole.specs.Divides as divides;
ghost use Rattle.whole.specs.Exact.{exactly};
ghost use Rattle.export.specs.Call.{Leaves, number};

pub mod ranges; // ranges.rt: intervals, two numbers each
pub mod sheets; // sheets.rt: the check and the run of a sheet's bytes
pub mod spacings; // spacings.rt: congruences, two numbers each

// The greatest common divisor of the absolute values, into room for one number.
#[unsafe(no_mangle)]
pub extern "C" fn tunisaypa_gcd(a: i64, b: i64, room: &mut [i64]) -> u8
    ensures { Leaves (number (exactly w64 (pos (divides.gcd (nat_abs a) (nat_abs b))))) room.old result room.new }
{
    export::tunisaypa_gcd(a, b, room)
}
