// The panel: the run of a sheet's bytes on numbers.
#![tactic(auto)]

ghost use Rattle.std.specs.Prelude.{◌≡◌, ◌+◌, ◌*◌, ◌<◌, ◌≤◌, pos, length, take, drop, get_or};
ghost use Rattle.std.proofs.lemmas.List.Edits.{sets};
ghost use Rattle.whole.specs.Sized.{width_of};
ghost use Rattle.step.specs.Run.{run_op};
ghost use Rattle.sheet.specs.Sheet.{steps_of};
ghost use Rattle.panel.specs.Run.{run_step, takes, taken?, actions_of, suits?, run_sheet, action_at};
ghost use Rattle.refusal.specs.Count.{count_told};
ghost use Rattle.panel.specs.Answer.{ran_on, result_of, Left, RanAt, Ran};

use refusal::{Fault, Refusal};
use step::Action;
use whole::Size;

// What step p gave, of the first k in the room; 0 past them.
fn given(room: &[i64], k: usize, p: usize) -> i64
    ensures { result ≡ get_or (take k room.now) p (pos 0) }
{
    if p < k {
        room.get(p).copied().unwrap_or(0)
    } else {
        0
    }
}

// The input at j, or 0 past the last.
fn input_at(inputs: &[i64], j: usize) -> i64
    ensures { result ≡ get_or (drop j inputs.now) 0 (pos 0) }
{
    inputs.get(j).copied().unwrap_or(0)
}

// What a step gives, after k steps and with the inputs from j on.
fn outcome(
    size: Size,
    act: Action,
    inputs: &[i64],
    j: usize,
    room: &[i64],
    k: usize,
) -> Result<i64, Refusal>
    ensures { result ≡ run_step (run_op (width_of size)) (drop j inputs.now) (take k room.now) act }
{
    match act {
        Action::Input(_, _) => Ok(input_at(inputs, j)),
        Action::Does(o, p, q, r) => step::run::run(
            size,
            o,
            given(room, k, p),
            given(room, k, q),
            given(room, k, r),
        ),
    }
}

// How many inputs a step takes.
fn used(act: Action) -> usize
    ensures { result ≡ takes act }
{
    match act {
        Action::Input(_, _) => 1,
        Action::Does(_, _, _, _) => 0,
    }
}

// Whether the input at j is there and in the step's range.
fn taken(act: Action, inputs: &[i64], j: usize) -> bool
    ensures { result ≡ taken? act (drop j inputs.now) }
{
    match act {
        Action::Input(l, h) => {
            if inputs.len() <= j {
                return false;
            }
            let x = inputs[j];
            if l <= x { x <= h } else { false }
        }
        Action::Does(_, _, _, _) => true,
    }
}

// The step at place k.
fn action_at(steps: &[i64], n: usize, k: usize) -> Action
    requires { (n ≤ 256) × (length steps.now ≡ n * 4) × (k < n) }
    ensures { result ≡ action_at steps.now k }
{
    let i = k * 4;
    step::kind::action_of(steps[i], steps[i + 1], steps[i + 2], steps[i + 3])
}

// Whether the inputs are as many as the n steps take, each in its range.
fn suits(steps: &[i64], n: usize, inputs: &[i64]) -> bool
    requires { (n ≤ 256) × (length steps.now ≡ n * 4) }
    ensures { result ≡ suits? (actions_of (steps_of steps.now)) inputs.now }
{
    let mut j = 0;
    for k in 0..n {
        let act = action_at(steps, n, k);
        if !taken(act, inputs, j) {
            return false;
        }
        j += used(act);
    }
    inputs.len() <= j
}

// Runs n steps, and puts their numbers into the room: at 12, 13 or 14 those before the step that stops.
fn run_steps(
    size: Size,
    steps: &[i64],
    n: usize,
    inputs: &[i64],
    room: &mut [i64],
) -> Result<usize, Fault>
    requires { (n ≤ 256) × (length steps.now ≡ n * 4) × (n ≤ length room.old) }
    ensures { (count_told result ≡ (result_of (run_sheet (run_op (width_of size)) inputs.now (steps_of steps.now))).told) × (room.new ≡ sets room.old 0 (result_of (run_sheet (run_op (width_of size)) inputs.now (steps_of steps.now))).numbers) }
{
    let mut j = 0;
    for k in 0..n {
        let act = action_at(steps, n, k);
        match outcome(size, act, inputs, j, room, k) {
            Ok(x) => {
                room[k] = x;
                j += used(act);
            }
            Err(r) => {
                return Err(Fault::AtStep(r, k));
            }
        }
    }
    Ok(n)
}

// Runs n steps that were read: 16, then 15, then the steps.
fn run_listed(
    size: Size,
    steps: &[i64],
    n: usize,
    inputs: &[i64],
    room: &mut [i64],
) -> Result<usize, Fault>
    requires { (n ≤ 256) × (length steps.now ≡ n * 4) }
    ensures { (count_told result ≡ (ran_on (run_op (width_of size)) (steps_of steps.now) inputs.now room.old).told) × (room.new ≡ sets room.old 0 (ran_on (run_op (width_of size)) (steps_of steps.now) inputs.now room.old).numbers) }
{
    if room.len() < n {
        return Err(Fault::By(Refusal::NoRoom));
    }
    if !suits(steps, n, inputs) {
        return Err(Fault::By(Refusal::InputsWrong));
    }
    run_steps(size, steps, n, inputs, room)
}

// Runs a sheet on its inputs, by numbers of a size, and puts the number of each step into the lent room. Answers how many
// steps it has; a fault is 5 to 11 at a byte, 12 to 14 at a step, or 15 or 16.
pub fn run_at(size: Size, bytes: &[u8], inputs: &[i64], room: &mut [i64]) -> Result<usize, Fault>
    ensures { RanAt (width_of size) bytes.now inputs.now room.old room.new result }
{
    let mut steps = [0i64; 1024];
    let n = sheet::read(bytes, &mut steps)?;
    run_listed(size, &steps[..n * 4], n, inputs, room)
}

// Runs a sheet at 64 bits, for those that C calls.
pub fn run(bytes: &[u8], inputs: &[i64], room: &mut [i64]) -> Result<usize, Fault>
    ensures { Ran bytes.now inputs.now room.old room.new result }
{
    run_at(Size::B64, bytes, inputs, room)
}
