// The family `sheet`: bytes are hexadecimal digits, a step is four numbers.
ghost use Rattle.sheet.specs.Sheet.{parse};
ghost use Rattle.sheet.specs.Answer.{writing};
ghost use Rattle.refusal.specs.Count.{fault_told};
ghost use Rattle.say.specs.Said.{Puts};
ghost use Rattle.ask.specs.Sheets.{refused_text, read_said, write_said, run_said, check_said};

use question::names::{Name, named};
use question::take::{name, numbers};
use refusal::Fault;
use say::Page;

// What a fault of reading or writing answers.
fn refused(page: &mut Page, fault: Fault)
    ensures { Puts (refused_text (fault_told fault)) page.old page.new }
{
    match fault {
        Fault::AtStep(why, step) => page.refused_at(step, why),
        Fault::AtByte(why, place) => page.refused_at(place, why),
        Fault::By(why) => page.refused(why),
    }
}

// What reading the bytes answers: 1,024 numbers are room for any sheet.
fn read_bytes(bytes: &[u8], page: &mut Page)
    ensures { Puts (read_said (parse bytes.now)) page.old page.new }
{
    let mut steps = [0i64; 1024];
    match sheet::read(bytes, &mut steps) {
        Ok(n) => {
            page.word(b"read");
            page.numbers(&steps[..n * 4]);
        }
        Err(fault) => refused(page, fault),
    }
}

// What writing the numbers answers: no sheet takes more bytes than that.
fn write_numbers(steps: &[i64], page: &mut Page)
    ensures { Puts (write_said (writing steps.now)) page.old page.new }
{
    let mut bytes = [0u8; 5378];
    match sheet::write(steps, &mut bytes) {
        Ok(n) => {
            page.word(b"written ");
            page.bytes(&bytes[..n]);
        }
        Err(fault) => refused(page, fault),
    }
}

// A line has room for no more numbers than that.
fn write(line: &[u8], at: usize, page: &mut Page) {
    let mut room = [0i64; 16384];
    match numbers(line, at, &mut room) {
        Some(n) => write_numbers(&room[..n], page),
        None => page.not_understood(),
    }
}

// What running the sheet on its inputs answers: 256 numbers are room for any run.
fn run_inputs(bytes: &[u8], inputs: &[i64], page: &mut Page)
    ensures { Puts (run_said (parse bytes.now) inputs.now) page.old page.new }
{
    let mut room = [0i64; 256];
    match panel::run(bytes, inputs, &mut room) {
        Ok(n) => {
            page.word(b"ended");
            page.numbers(&room[0..n]);
        }
        Err(Fault::AtStep(why, step)) => {
            page.stopped_at(step, why);
            page.numbers(&room[0..step]);
        }
        Err(Fault::AtByte(why, place)) => page.refused_at(place, why),
        Err(Fault::By(why)) => page.refused(why),
    }
}

// What checking the bytes answers: 1,280 numbers are room for any sheet.
fn check_bytes(bytes: &[u8], page: &mut Page)
    ensures { Puts (check_said (parse bytes.now)) page.old page.new }
{
    let mut room = [0i64; 1280];
    match desk::check(bytes, &mut room) {
        Ok(n) => {
            page.word(b"passed");
            page.numbers(&room[0..n * 5]);
        }
        Err(Fault::AtStep(why, step)) => {
            page.word(b"refused at step ");
            page.place_by(step, why);
            page.numbers(&room[0..step * 5]);
        }
        Err(Fault::AtByte(why, place)) => page.refused_at(place, why),
        Err(Fault::By(why)) => page.refused(why),
    }
}

// What is asked of bytes: reading and checking take no numbers, a run takes its inputs.
fn of_bytes(op: Name, bytes: &[u8], inputs: &[i64], page: &mut Page) {
    match (op, inputs) {
        (Name::Check, []) => check_bytes(bytes, page),
        (Name::Read, []) => read_bytes(bytes, page),
        (Name::Run, _) => run_inputs(bytes, inputs, page),
        _ => page.not_understood(),
    }
}

// The numbers after the bytes.
fn with_numbers(op: Name, bytes: &[u8], line: &[u8], at: usize, page: &mut Page) {
    let mut room = [0i64; 16384];
    match numbers(line, at, &mut room) {
        Some(n) => of_bytes(op, bytes, &room[..n], page),
        None => page.not_understood(),
    }
}

// A line has room for no more bytes than that.
fn on_bytes(op: Name, line: &[u8], at: usize, page: &mut Page) {
    let mut room = [0u8; 16384];
    match crate::take::bytes(line, at, &mut room) {
        Some((n, next)) => with_numbers(op, &room[..n], line, next, page),
        None => page.not_understood(),
    }
}

// The answer to what stands after the family's name.
pub(crate) fn say(line: &[u8], at: usize, page: &mut Page) {
    let (word, next) = name(line, at);
    match named(word) {
        Some(Name::Write) => write(line, next, page),
        Some(op) => on_bytes(op, line, next, page),
        None => page.not_understood(),
    }
}
