// What the run of a sheet prints.
ghost use Rattle.std.specs.Prelude.{◌≤◌, ◌<◌, length};
ghost use Rattle.sheet.specs.Sheet.{parse};
ghost use Rattle.say.specs.Said.{size, Puts, Prints};
ghost use Rattle.say.specs.Texts.{numbered};
ghost use Rattle.run_sheet.specs.Text.{step_line, run_text};

use refusal::Fault;
use say::Page;

// Room for what any run prints: 256 lines of at most 25 bytes, and the last.
pub const ROOM: usize = 8192;

// The line of step k, which takes at most 25 bytes.
fn line(page: &mut Page, k: usize, n: i64)
    ensures { Puts (step_line k n) page.old page.new × (k < 256 → size (step_line k n) ≤ 25) }
{
    page.natural(k as u64);
    page.word(b" ");
    page.number(n);
    page.word(b"\n");
}

// The lines of the steps' numbers.
fn lines(page: &mut Page, numbers: &[i64])
    ensures { Puts (numbered step_line 0 numbers.now) page.old page.new × (length numbers.now ≤ 256 → size (numbered step_line 0 numbers.now) ≤ 6400) }
{
    for (k, n) in numbers.iter().enumerate() {
        line(page, k, *n);
    }
}

// What the run of the bytes on the inputs prints: 256 numbers are room for any run.
fn run_text(bytes: &[u8], inputs: &[i64], page: &mut Page)
    ensures { Puts (run_text (parse bytes.now) inputs.now) page.old page.new × (size (run_text (parse bytes.now) inputs.now) ≤ 8192) }
{
    let mut room = [0i64; 256];
    match panel::run(bytes, inputs, &mut room) {
        Ok(n) => {
            lines(page, &room[0..n]);
            page.count_line(b"ended ", n);
        }
        Err(Fault::AtStep(why, step)) => {
            lines(page, &room[0..step]);
            page.place_line(b"stopped at step ", step, why);
        }
        Err(Fault::AtByte(why, place)) => page.place_line(b"refused at byte ", place, why),
        Err(Fault::By(why)) => {
            page.refused(why);
            page.word(b"\n");
        }
    }
}

// Puts what the run of the bytes on the inputs prints, the whole of it, and answers how many bytes that are.
pub fn run(bytes: &[u8], inputs: &[i64], out: &mut [u8; ROOM]) -> usize
    ensures { Prints (run_text (parse bytes.now) inputs.now) out.old out.new result }
{
    let mut page = Page {
        bytes: out,
        made: 0,
    };
    run_text(bytes, inputs, &mut page);
    page.made
}
