// What the check of a sheet prints.
ghost use Rattle.std.specs.Prelude.{◌*◌, ◌≤◌, length};
ghost use Rattle.sheet.specs.Sheet.{parse};
ghost use Rattle.say.specs.Said.{Puts, Prints};
ghost use Rattle.say.specs.Texts.{numbered};
ghost use Rattle.desk.specs.Five.{shown_first};
ghost use Rattle.check_sheet.specs.Text.{shown_text, step_line, check_text};

use refusal::Fault;
use say::Page;
use step::show::Shown;

// Room for what any check prints: 256 lines of at most 104 bytes, and the last.
pub const ROOM: usize = 32768;

// Range, spacing and sign.
fn shown(page: &mut Page, v: Shown)
    ensures { Puts (shown_text v) page.old page.new }
{
    page.interval(v.range);
    page.word(b" ");
    page.congruence(v.spacing);
    page.word(b" ");
    page.sign(v.sign);
}

// The line of step k.
fn line(page: &mut Page, k: usize, v: Shown)
    ensures { Puts (step_line k v) page.old page.new }
{
    page.natural(k as u64);
    page.word(b" ");
    shown(page, v);
    page.word(b"\n");
}

// The lines of the first n steps in the room.
fn lines(page: &mut Page, room: &[i64], n: usize)
    requires { n * 5 ≤ length room.now }
    ensures { Puts (numbered step_line 0 (shown_first room.now n)) page.old page.new }
{
    for k in 0..n {
        line(page, k, desk::shown_at(room, k));
    }
}

// What the check of the bytes prints: 1,280 numbers are room for any sheet.
fn check_text(bytes: &[u8], page: &mut Page)
    ensures { Puts (check_text (parse bytes.now)) page.old page.new }
{
    let mut room = [0i64; 1280];
    match desk::check(bytes, &mut room) {
        Ok(n) => {
            lines(page, &room, n);
            page.count_line(b"passed ", n);
        }
        Err(Fault::AtStep(why, step)) => {
            lines(page, &room, step);
            page.place_line(b"refused at step ", step, why);
        }
        Err(Fault::AtByte(why, place)) => page.place_line(b"refused at byte ", place, why),
        Err(Fault::By(why)) => page.refused(why),
    }
}

// Puts what the check of the bytes prints, the whole of it, and answers how many bytes that are.
pub fn check(bytes: &[u8], out: &mut [u8; ROOM]) -> usize
    ensures { Prints (check_text (parse bytes.now)) out.old out.new result }
{
    let mut page = Page {
        bytes: out,
        made: 0,
    };
    check_text(bytes, &mut page);
    page.made
}
