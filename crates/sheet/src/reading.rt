// Fields, steps and whole sheets out of bytes. The bytes and the place are two arguments, as `field_at` and `step_at` of specs/ have them.
ghost use Rattle.std.specs.Prelude.{◌≡◌, ◌<◌, ◌≤◌, ◌*◌, pos, length};
ghost use Rattle.std.proofs.lemmas.List.Edits.{sets};
ghost use Rattle.sheet.specs.declared.operator.Kind.TheVariants.{Signed, High, Earlier};
ghost use Rattle.sheet.specs.Got.{verdict_of, fine};
ghost use Rattle.sheet.specs.Field.{field_at};
ghost use Rattle.sheet.specs.Step.{fields_at, step_at};
ghost use Rattle.sheet.specs.Sheet.{steps_from, steps_in, flat};
ghost use Rattle.sheet.specs.Found.{field_found, step_found, check_found};

use crate::number::{BadByte, read_number};
use crate::operator::{Fields, Kind, OPERATORS, fields_of, first, second, third};
use crate::signed::unfold;
use crate::step::Step;
use refusal::Refusal;

fn read_signed(s: &[u8], at: usize) -> Result<(i64, usize), BadByte>
    ensures { field_found result ≡ field_at Signed s.now at 0 (pos 0) }
{
    let (n, next) = read_number(s, at)?;
    Ok((unfold(n), next))
}

fn read_high(s: &[u8], at: usize, low: i64) -> Result<(i64, usize), BadByte>
    ensures { field_found result ≡ field_at High s.now at 0 low }
{
    let (x, next) = read_signed(s, at)?;
    if x < low {
        return Err(BadByte(Refusal::LowAboveHigh, at));
    }
    Ok((x, next))
}

fn read_operand(s: &[u8], at: usize, k: usize) -> Result<(i64, usize), BadByte>
    requires { k ≤ 256 }
    ensures { field_found result ≡ field_at Earlier s.now at k (pos 0) }
{
    let (n, next) = read_number(s, at)?;
    if n < k as u64 {
        Ok((n as i64, next))
    } else {
        Err(BadByte(Refusal::NotEarlier, at))
    }
}

// A field of step k, in a step whose first field is `low`, and the place after it.
fn read_field(s: &[u8], at: usize, kind: Kind, k: usize, low: i64) -> Result<(i64, usize), BadByte>
    requires { k ≤ 256 }
    ensures { field_found result ≡ field_at kind s.now at k low }
{
    match kind {
        Kind::Unused => Ok((0, at)),
        Kind::Signed => read_signed(s, at),
        Kind::High => read_high(s, at, low),
        Kind::Earlier => read_operand(s, at, k),
    }
}

// Step k, of whose operator, by the number that was read, the fields are read, and the place after it.
fn read_fields(s: &[u8], p: usize, op: u64, f: Fields, k: usize) -> Result<(Step, usize), BadByte>
    requires { (k ≤ 256) × (op < 17) }
    ensures { step_found result ≡ fields_at f s.now op p k }
{
    let (a, q) = read_field(s, p, first(f), k, 0)?;
    let (b, t) = read_field(s, q, second(f), k, a)?;
    let (c, next) = read_field(s, t, third(f), k, a)?;
    let operator = op as i64;
    Ok((Step { operator, a, b, c }, next))
}

// Step k at the place `at`, and the place after it.
fn read_step(s: &[u8], at: usize, k: usize) -> Result<(Step, usize), BadByte>
    requires { k ≤ 256 }
    ensures { step_found result ≡ step_at s.now at k }
{
    let (op, p) = read_number(s, at)?;
    if op < OPERATORS {
        read_fields(s, p, op, fields_of(op), k)
    } else {
        Err(BadByte(Refusal::UnknownOperator, at))
    }
}

// Whether n steps and then the end stand at the place `from`.
pub(crate) fn check_steps(s: &[u8], from: usize, n: usize) -> Result<(), BadByte>
    requires { n ≤ 256 }
    ensures { check_found result ≡ verdict_of (steps_from n s.now 0 from) }
{
    let mut at = from;
    for k in 0..n {
        let (_, next) = read_step(s, at, k)?;
        at = next;
    }
    if at < s.len() {
        return Err(BadByte(Refusal::LeftOver, at));
    }
    Ok(())
}

// Stores n steps that were checked, four numbers a step.
pub(crate) fn fill_steps(s: &[u8], from: usize, n: usize, out: &mut [i64])
    requires { (n ≤ 256) × (n * 4 ≤ length out.old) × (verdict_of (steps_from n s.now 0 from) ≡ fine) }
    ensures { out.new ≡ sets out.old 0 (flat (steps_in (steps_from n s.now 0 from))) }
{
    let mut at = from;
    for k in 0..n {
        let Ok((step, next)) = read_step(s, at, k) else {
            return;
        };
        let i = k * 4;
        out[i] = step.operator;
        out[i + 1] = step.a;
        out[i + 2] = step.b;
        out[i + 3] = step.c;
        at = next;
    }
}
