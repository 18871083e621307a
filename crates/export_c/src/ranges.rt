// Intervals, two numbers each: least, greatest.
ghost use Rattle.std.specs.Int.{w64};
ghost use Rattle.interval.specs.Set.{◌⋯◌};
ghost use Rattle.refusal.specs.Answer.{is};
ghost use Rattle.interval.specs.Mended as mended;
ghost use Rattle.interval.specs.Ported as ported;
ghost use Rattle.export.specs.Call.{Leaves, range};

// The sums, saturated; an infinite end stays infinite.
#[unsafe(no_mangle)]
pub extern "C" fn tunisaypa_interval_add(a: i64, b: i64, c: i64, d: i64, room: &mut [i64]) -> u8
    ensures { Leaves (range (is (ported.add (a ⋯ b) (c ⋯ d)))) room.old result room.new }
{
    export::ranges::tunisaypa_interval_add(a, b, c, d, room)
}

// From the least to the greatest of the four saturated corner products.
#[unsafe(no_mangle)]
pub extern "C" fn tunisaypa_interval_mul(a: i64, b: i64, c: i64, d: i64, room: &mut [i64]) -> u8
    ensures { Leaves (range (is (ported.mul (a ⋯ b) (c ⋯ d)))) room.old result room.new }
{
    export::ranges::tunisaypa_interval_mul(a, b, c, d, room)
}

// The remainders, by the greatest absolute value of the divisor's ends.
#[unsafe(no_mangle)]
pub extern "C" fn tunisaypa_interval_rem(a: i64, b: i64, c: i64, d: i64, room: &mut [i64]) -> u8
    ensures { Leaves (range (ported.rem (a ⋯ b) (c ⋯ d))) room.old result room.new }
{
    export::ranges::tunisaypa_interval_rem(a, b, c, d, room)
}

// The least interval that holds both. It is right, so there is no mended twin.
#[unsafe(no_mangle)]
pub extern "C" fn tunisaypa_interval_join(a: i64, b: i64, c: i64, d: i64, room: &mut [i64]) -> u8
    ensures { Leaves (range (is (mended.join (a ⋯ b) (c ⋯ d)))) room.old result room.new }
{
    export::ranges::tunisaypa_interval_join(a, b, c, d, room)
}

// The least range of all sums.
#[unsafe(no_mangle)]
pub extern "C" fn tunisaypa_mended_interval_add(
    a: i64,
    b: i64,
    c: i64,
    d: i64,
    room: &mut [i64],
) -> u8
    ensures { Leaves (range (mended.add w64 (a ⋯ b) (c ⋯ d))) room.old result room.new }
{
    export::ranges::tunisaypa_mended_interval_add(a, b, c, d, room)
}

// The least range of all products.
#[unsafe(no_mangle)]
pub extern "C" fn tunisaypa_mended_interval_mul(
    a: i64,
    b: i64,
    c: i64,
    d: i64,
    room: &mut [i64],
) -> u8
    ensures { Leaves (range (mended.mul w64 (a ⋯ b) (c ⋯ d))) room.old result room.new }
{
    export::ranges::tunisaypa_mended_interval_mul(a, b, c, d, room)
}

// The remainders, by the greatest magnitude in the divisor.
#[unsafe(no_mangle)]
pub extern "C" fn tunisaypa_mended_interval_rem(
    a: i64,
    b: i64,
    c: i64,
    d: i64,
    room: &mut [i64],
) -> u8
    ensures { Leaves (range (mended.rem w64 (a ⋯ b) (c ⋯ d))) room.old result room.new }
{
    export::ranges::tunisaypa_mended_interval_rem(a, b, c, d, room)
}
