// Congruences, as two numbers each: (c, m) and (e, n). The answer's two go into the lent room.
ghost use Rattle.refusal.specs.Answer.{told};
ghost use Rattle.std.specs.Prelude.{◌≡◌, Ok};
ghost use Rattle.std.specs.Int.{w64};
ghost use Rattle.congruence.specs.Set.{cong};
ghost use Rattle.congruence.specs.Mended as mended;
ghost use Rattle.congruence.specs.Ported as ported;
ghost use Rattle.export.specs.Call.{Leaves, spacing};

use crate::put_two;
use congruence::Congruence;
use refusal::Refusal;
use whole::Size;

// Puts an answer's spacing into the lent room.
fn put_spacing(room: &mut [i64], answer: Result<Congruence, Refusal>) -> u8
    ensures { Leaves (spacing (told answer)) room.old result room.new }
{
    match answer {
        Ok(v) => put_two(room, v.constant, v.modulus),
        Err(r) => r.number(),
    }
}

fn modulo(constant: i64, modulus: i64) -> Congruence
    ensures { result ≡ cong constant modulus }
{
    Congruence { constant, modulus }
}

// ---- ported

// The class of the left constant modulo the gcd of both moduli and the difference.
pub fn tunisaypa_congruence_join(c: i64, m: i64, e: i64, n: i64, room: &mut [i64]) -> u8
    ensures { Leaves (spacing (ported.join (cong c m) (cong e n))) room.old result room.new }
{
    let x = modulo(c, m);
    let y = modulo(e, n);
    put_spacing(room, congruence::ported::join(x, y))
}

// The products, by the Rust's formula.
pub fn tunisaypa_congruence_mul(c: i64, m: i64, e: i64, n: i64, room: &mut [i64]) -> u8
    ensures { Leaves (spacing (ported.mul (cong c m) (cong e n))) room.old result room.new }
{
    let x = modulo(c, m);
    let y = modulo(e, n);
    put_spacing(room, congruence::ported::mul(x, y))
}

// The left constant modulo the lcm, if they share a number.
pub fn tunisaypa_congruence_meet(c: i64, m: i64, e: i64, n: i64, room: &mut [i64]) -> u8
    ensures { Leaves (spacing (ported.meet (cong c m) (cong e n))) room.old result room.new }
{
    let x = modulo(c, m);
    let y = modulo(e, n);
    put_spacing(room, congruence::ported::meet(x, y))
}

// ---- mended

// The least class that holds both.
pub fn tunisaypa_mended_congruence_join(c: i64, m: i64, e: i64, n: i64, room: &mut [i64]) -> u8
    ensures { Leaves (spacing (mended.join w64 (cong c m) (cong e n))) room.old result room.new }
{
    let x = modulo(c, m);
    let y = modulo(e, n);
    put_spacing(room, congruence::mended::join(Size::B64, x, y))
}

// The products, by the Rust's formula, made canonical.
pub fn tunisaypa_mended_congruence_mul(c: i64, m: i64, e: i64, n: i64, room: &mut [i64]) -> u8
    ensures { Leaves (spacing (mended.mul w64 (cong c m) (cong e n))) room.old result room.new }
{
    let x = modulo(c, m);
    let y = modulo(e, n);
    put_spacing(room, congruence::mended::mul(Size::B64, x, y))
}

// The common numbers.
pub fn tunisaypa_mended_congruence_meet(c: i64, m: i64, e: i64, n: i64, room: &mut [i64]) -> u8
    ensures { Leaves (spacing (mended.meet w64 (cong c m) (cong e n))) room.old result room.new }
{
    let x = modulo(c, m);
    let y = modulo(e, n);
    put_spacing(room, congruence::mended::meet(Size::B64, x, y))
}
