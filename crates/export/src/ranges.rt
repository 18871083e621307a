// Intervals, as two numbers each: [a, b] and [c, d]. The answer's two go into the lent room.
ghost use Rattle.std.specs.Prelude.{◌≡◌, Ok};
ghost use Rattle.std.specs.Int.{w64};
ghost use Rattle.interval.specs.Set.{◌⋯◌};
ghost use Rattle.refusal.specs.Answer.{is, told};
ghost use Rattle.interval.specs.Mended as mended;
ghost use Rattle.interval.specs.Ported as ported;
ghost use Rattle.export.specs.Call.{Leaves, range};

use crate::put_two;
use interval::Interval;
use refusal::Refusal;
use whole::Size;

// Puts an answer's range into the lent room.
fn put_range(room: &mut [i64], answer: Result<Interval, Refusal>) -> u8
    ensures { Leaves (range (told answer)) room.old result room.new }
{
    match answer {
        Ok(v) => put_two(room, v.min, v.max),
        Err(r) => r.number(),
    }
}

fn between(min: i64, max: i64) -> Interval
    ensures { result ≡ (min ⋯ max) }
{
    Interval { min, max }
}

// ---- ported

// The sums, saturated; an infinite end stays infinite.
pub fn tunisaypa_interval_add(a: i64, b: i64, c: i64, d: i64, room: &mut [i64]) -> u8
    ensures { Leaves (range (is (ported.add (a ⋯ b) (c ⋯ d)))) room.old result room.new }
{
    let x = between(a, b);
    let y = between(c, d);
    put_range(room, Ok(interval::ported::add(x, y)))
}

// From the least to the greatest of the four saturated corner products.
pub fn tunisaypa_interval_mul(a: i64, b: i64, c: i64, d: i64, room: &mut [i64]) -> u8
    ensures { Leaves (range (is (ported.mul (a ⋯ b) (c ⋯ d)))) room.old result room.new }
{
    let x = between(a, b);
    let y = between(c, d);
    put_range(room, Ok(interval::ported::mul(x, y)))
}

// The remainders, by the greatest absolute value of the divisor's ends.
pub fn tunisaypa_interval_rem(a: i64, b: i64, c: i64, d: i64, room: &mut [i64]) -> u8
    ensures { Leaves (range (ported.rem (a ⋯ b) (c ⋯ d))) room.old result room.new }
{
    let x = between(a, b);
    let y = between(c, d);
    put_range(room, interval::ported::rem(x, y))
}

// The least interval that holds both. It is right, so there is no mended twin.
pub fn tunisaypa_interval_join(a: i64, b: i64, c: i64, d: i64, room: &mut [i64]) -> u8
    ensures { Leaves (range (is (mended.join (a ⋯ b) (c ⋯ d)))) room.old result room.new }
{
    let x = between(a, b);
    let y = between(c, d);
    put_range(room, Ok(interval::ported::join(x, y)))
}

// ---- mended

// The least range of all sums.
pub fn tunisaypa_mended_interval_add(a: i64, b: i64, c: i64, d: i64, room: &mut [i64]) -> u8
    ensures { Leaves (range (mended.add w64 (a ⋯ b) (c ⋯ d))) room.old result room.new }
{
    let x = between(a, b);
    let y = between(c, d);
    put_range(room, interval::mended::add(Size::B64, x, y))
}

// The least range of all products.
pub fn tunisaypa_mended_interval_mul(a: i64, b: i64, c: i64, d: i64, room: &mut [i64]) -> u8
    ensures { Leaves (range (mended.mul w64 (a ⋯ b) (c ⋯ d))) room.old result room.new }
{
    let x = between(a, b);
    let y = between(c, d);
    put_range(room, interval::mended::mul(Size::B64, x, y))
}

// The remainders, by the greatest magnitude in the divisor.
pub fn tunisaypa_mended_interval_rem(a: i64, b: i64, c: i64, d: i64, room: &mut [i64]) -> u8
    ensures { Leaves (range (mended.rem w64 (a ⋯ b) (c ⋯ d))) room.old result room.new }
{
    let x = between(a, b);
    let y = between(c, d);
    put_range(room, interval::mended::rem(Size::B64, x, y))
}
