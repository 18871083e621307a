// Congruences, two numbers each: constant, modulus.
ghost use Rattle.std.specs.Int.{w64};
ghost use Rattle.congruence.specs.Set.{cong};
ghost use Rattle.congruence.specs.Mended as mended;
ghost use Rattle.congruence.specs.Ported as ported;
ghost use Rattle.export.specs.Call.{Leaves, spacing};

// The class of the left constant modulo the gcd of both moduli and the difference.
#[unsafe(no_mangle)]
pub extern "C" fn tunisaypa_congruence_join(c: i64, m: i64, e: i64, n: i64, room: &mut [i64]) -> u8
    ensures { Leaves (spacing (ported.join (cong c m) (cong e n))) room.old result room.new }
{
    export::spacings::tunisaypa_congruence_join(c, m, e, n, room)
}

// The products, by the Rust's formula.
#[unsafe(no_mangle)]
pub extern "C" fn tunisaypa_congruence_mul(c: i64, m: i64, e: i64, n: i64, room: &mut [i64]) -> u8
    ensures { Leaves (spacing (ported.mul (cong c m) (cong e n))) room.old result room.new }
{
    export::spacings::tunisaypa_congruence_mul(c, m, e, n, room)
}

// The left constant modulo the lcm, if they share a number.
#[unsafe(no_mangle)]
pub extern "C" fn tunisaypa_congruence_meet(c: i64, m: i64, e: i64, n: i64, room: &mut [i64]) -> u8
    ensures { Leaves (spacing (ported.meet (cong c m) (cong e n))) room.old result room.new }
{
    export::spacings::tunisaypa_congruence_meet(c, m, e, n, room)
}

// The least class that holds both.
#[unsafe(no_mangle)]
pub extern "C" fn tunisaypa_mended_congruence_join(
    c: i64,
    m: i64,
    e: i64,
    n: i64,
    room: &mut [i64],
) -> u8
    ensures { Leaves (spacing (mended.join w64 (cong c m) (cong e n))) room.old result room.new }
{
    export::spacings::tunisaypa_mended_congruence_join(c, m, e, n, room)
}

// The products, by the Rust's formula, made canonical.
#[unsafe(no_mangle)]
pub extern "C" fn tunisaypa_mended_congruence_mul(
    c: i64,
    m: i64,
    e: i64,
    n: i64,
    room: &mut [i64],
) -> u8
    ensures { Leaves (spacing (mended.mul w64 (cong c m) (cong e n))) room.old result room.new }
{
    export::spacings::tunisaypa_mended_congruence_mul(c, m, e, n, room)
}

// The common numbers.
#[unsafe(no_mangle)]
pub extern "C" fn tunisaypa_mended_congruence_meet(
    c: i64,
    m: i64,
    e: i64,
    n: i64,
    room: &mut [i64],
) -> u8
    ensures { Leaves (spacing (mended.meet w64 (cong c m) (cong e n))) room.old result room.new }
{
    export::spacings::tunisaypa_mended_congruence_meet(c, m, e, n, room)
}
