// Sheets: bytes to steps and back.
#![tactic(auto)]

ghost use Rattle.std.specs.Prelude.{◌≡◌};
ghost use Rattle.refusal.specs.Count.{count_told};
ghost use Rattle.sheet.specs.Answer.{reading, writing, answer, content};

use faults::check_listed;
use reader::first_number;
use reading::{check_steps, fill_steps};
use refusal::{Fault, Refusal};
use writing::{fill_listed, fill_number, listed_width, width};

pub mod step; // step.rt: four numbers as a step
pub mod number; // number.rt: groups of seven bits
mod signed; // signed.rt: signed numbers folded to unsigned ones
mod operator; // operator.rt: the operators' table of fields
pub mod reader; // reader.rt: the lent bytes and a place, kept together
mod reading; // reading.rt: fields, steps and whole sheets out of bytes
mod faults; // faults.rt: what is wrong with steps that are to be written
mod writing; // writing.rt: steps into bytes

// Reads a sheet into a lent buffer, four numbers a step, and answers the count of its steps: 5 to 11 at a byte, or 16.
pub fn read(bytes: &[u8], out: &mut [i64]) -> Result<usize, Fault>
    ensures { (count_told result ≡ answer (reading bytes.now) out.old) × (out.new ≡ content (reading bytes.now) out.old) }
{
    let (n, p) = first_number(bytes)?;
    if 256 < n {
        return Err(Fault::AtByte(Refusal::TooManySteps, 0));
    }
    let count = n as usize;
    check_steps(bytes, p, count)?;
    if out.len() < count * 4 {
        return Err(Fault::By(Refusal::NoRoom));
    }
    fill_steps(bytes, p, count, out);
    Ok(count)
}

// Writes a sheet into a lent buffer, from four numbers a step, and answers the count of its bytes: 1 of the list's length,
// 1 and 7 to 10 at a step, or 16.
pub fn write(steps: &[i64], out: &mut [u8]) -> Result<usize, Fault>
    ensures { (count_told result ≡ answer (writing steps.now) out.old) × (out.new ≡ content (writing steps.now) out.old) }
{
    if steps.len() % 4 != 0 {
        return Err(Fault::By(Refusal::NotInDomain));
    }
    let n = steps.len() / 4;
    if 256 < n {
        return Err(Fault::AtStep(Refusal::TooManySteps, 0));
    }
    check_listed(steps, n)?;
    let count = n as u64;
    let size = width(count) + listed_width(steps, n);
    if out.len() < size {
        return Err(Fault::By(Refusal::NoRoom));
    }
    let at = fill_number(out, 0, count);
    fill_listed(steps, n, out, at);
    Ok(size)
}
