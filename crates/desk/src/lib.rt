// The desk: the check of a sheet's bytes on shown values.
#![tactic(auto)]

ghost use Rattle.std.specs.Prelude.{◌≡◌, ◌+◌, ◌*◌, ◌/◌, ◌<◌, ◌≤◌, [], ◌∷◌, pos, length};
ghost use Rattle.sign.specs.Index.{index_of};
ghost use Rattle.std.proofs.lemmas.List.Edits.{sets};
ghost use Rattle.whole.specs.Sized.{width_of};
ghost use Rattle.sheet.specs.Sheet.{steps_of};
ghost use Rattle.panel.specs.Run.{action_at};
ghost use Rattle.step.specs.Stopping.{stopping};
ghost use Rattle.desk.specs.Check.{check_sheet};
ghost use Rattle.desk.specs.Five.{five_of, sign_at, looked_up};
ghost use Rattle.refusal.specs.Count.{count_told};
ghost use Rattle.desk.specs.Answer.{checked_on, result_of, step_in, Left, CheckedAt, Checked};

use congruence::Congruence;
use interval::Interval;
use refusal::{Fault, Refusal};
use sign::Sign;
use step::Action;
use step::show::Shown;
use whole::Size;

// Looked up by number, as the room has them: `sign_at` of specs/Five has an answer for every number.
// The signs by their numbers.
const SIGNS: [Sign; 8] = [
    Sign::Top,
    Sign::Bottom,
    Sign::Negative,
    Sign::Zero,
    Sign::Positive,
    Sign::NonNeg,
    Sign::NonZero,
    Sign::NonPos,
];

// The sign of a number; Top for one that is none.
fn sign_at(n: u64) -> Sign
    ensures { result ≡ sign_at n }
{
    SIGNS.get(n as usize).copied().unwrap_or(Sign::Top)
}

// What step p showed, of the first k in the room; 0 past them.
fn looked_up(room: &[i64], k: usize, p: usize) -> Shown
    requires { k * 5 ≤ length room.now }
    ensures { result ≡ looked_up room.now k p }
{
    if k <= p {
        return Shown {
            range: Interval { min: 0, max: 0 },
            spacing: Congruence {
                constant: 0,
                modulus: 0,
            },
            sign: Sign::Zero,
        };
    }
    let i = p * 5;
    let sign = sign_at(whole::natural(room[i + 4]));
    Shown {
        range: Interval {
            min: room[i],
            max: room[i + 1],
        },
        spacing: Congruence {
            constant: room[i + 2],
            modulus: room[i + 3],
        },
        sign,
    }
}

// What step p shows in a room that a check has filled; 0 past the last place.
pub fn shown_at(room: &[i64], p: usize) -> Shown
    ensures { result ≡ looked_up room.now (length room.now / 5) p }
{
    looked_up(room, room.len() / 5, p)
}

// What a step shows after k steps, or its refusal.
fn shown_of(size: Size, act: Action, room: &[i64], k: usize) -> Result<Shown, Refusal>
    requires { (k ≤ 256) × (k * 5 ≤ length room.now) }
    ensures { result ≡ step_in (width_of size) room.now k act }
{
    match act {
        Action::Input(l, h) => Ok(step::show::input(l, h)),
        Action::Does(o, p, q, r) => step::show::show(
            size,
            o,
            looked_up(room, k, p),
            looked_up(room, k, q),
            looked_up(room, k, r),
        ),
    }
}

// Puts what step k shows into the room.
fn put(room: &mut [i64], k: usize, v: Shown)
    requires { (k < 256) × (k * 5 + 5 ≤ length room.old) }
    ensures { room.new ≡ sets room.old (k * 5) (five_of v) }
{
    let i = k * 5;
    let sign = sign::index_of(v.sign) as i64;
    room[i..i + 5].copy_from_slice(&[
        v.range.min,
        v.range.max,
        v.spacing.constant,
        v.spacing.modulus,
        sign,
    ]);
}

// The step at place k.
fn action_at(steps: &[i64], n: usize, k: usize) -> Action
    requires { (n ≤ 256) × (length steps.now ≡ n * 4) × (k < n) }
    ensures { result ≡ action_at steps.now k }
{
    let i = k * 4;
    step::kind::action_of(steps[i], steps[i + 1], steps[i + 2], steps[i + 3])
}

// Checks n steps, and puts what they show into the room: at 12, 13 or 14 those before the step that is refused.
fn check_steps(size: Size, steps: &[i64], n: usize, room: &mut [i64]) -> Result<usize, Fault>
    requires { (n ≤ 256) × (length steps.now ≡ n * 4) × (n * 5 ≤ length room.old) }
    ensures { (count_told result ≡ (result_of (check_sheet (stopping (width_of size)) (steps_of steps.now))).told) × (room.new ≡ sets room.old 0 (result_of (check_sheet (stopping (width_of size)) (steps_of steps.now))).numbers) }
{
    for k in 0..n {
        let act = action_at(steps, n, k);
        match shown_of(size, act, room, k) {
            Ok(v) => put(room, k, v),
            Err(r) => {
                return Err(Fault::AtStep(r, k));
            }
        }
    }
    Ok(n)
}

// Checks n steps that were read: 16, then the steps.
fn check_listed(size: Size, steps: &[i64], n: usize, room: &mut [i64]) -> Result<usize, Fault>
    requires { (n ≤ 256) × (length steps.now ≡ n * 4) }
    ensures { (count_told result ≡ (checked_on (width_of size) (steps_of steps.now) room.old).told) × (room.new ≡ sets room.old 0 (checked_on (width_of size) (steps_of steps.now) room.old).numbers) }
{
    if room.len() < n * 5 {
        return Err(Fault::By(Refusal::NoRoom));
    }
    check_steps(size, steps, n, room)
}

// Checks a sheet for panels of a size, and puts what each step shows into the lent room, five numbers a step. Answers how many
// steps it has; a fault is 5 to 11 at a byte, 12 to 14 at a step, or 16.
pub fn check_at(size: Size, bytes: &[u8], room: &mut [i64]) -> Result<usize, Fault>
    ensures { CheckedAt (width_of size) bytes.now room.old room.new result }
{
    let mut steps = [0i64; 1024];
    let n = sheet::read(bytes, &mut steps)?;
    check_listed(size, &steps[..n * 4], n, room)
}

// Checks a sheet at 64 bits, for those that C calls.
pub fn check(bytes: &[u8], room: &mut [i64]) -> Result<usize, Fault>
    ensures { Checked bytes.now room.old room.new result }
{
    check_at(Size::B64, bytes, room)
}
