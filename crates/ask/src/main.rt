// Answers the questions on standard input, a line each: the name of a family and of an operation, and its operands.
#![tactic(auto)]

mod answer;
mod line;
mod sheets;
mod take;

ghost use Rattle.std.specs.Prelude.{◌≡◌, ◌≤◌, ℕ, List, length, take};
ghost use Rattle.std.specs.Io.KnownBytes.{Consumes};
ghost use Rattle.ask.specs.Unfinished.{unfinished};
ghost use Rattle.ask.specs.Waiting.{ReadOn, Skipped, waiting};

use std::io::Read;

// An answer takes at most so many bytes: the output has room for one more when it is written.
const ANSWER: usize = 65536;

// What is known between two reads.
#[derive(Clone, Copy)]
enum State {
    // So many bytes of an unfinished line wait at the start of the buffer.
    Waiting(usize),
    // The bytes to come belong to a line that is answered already, since it is too long.
    Skipping,
    // The input has ended.
    Ended,
}

// Reads once, and answers how many bytes came: a read that fails ends the input.
fn read<R: Read>(input: &mut R, room: &mut [u8]) -> usize
    ensures fits { result ≤ length room.new }
    ensures came { Consumes (R.remaining input.old) (R.remaining input.new) (take result room.new) }
{
    input.read(room).unwrap_or(0)
}

// Answers the lines of a text that ends where its last line does, before the line end.
fn answer_each(rt: &impl Print, lines: &[u8], out: &mut [u8]) {
    let mut made = 0;
    for line in lines.split(|byte| *byte == b'\n') {
        if ANSWER < made {
            files::print(rt, out, made);
            made = 0;
        }
        made = line::answer(line, out, made);
    }
    files::print(rt, out, made);
}

// Answers the lines that end in the text, moves what is left to its start, and answers how many bytes that is.
fn answer_lines(rt: &impl Print, text: &mut [u8], out: &mut [u8]) -> usize
    ensures fits { result ≤ length text.new }
    ensures count { result ≡ length (unfinished text.old) }
    ensures left { take result text.new ≡ unfinished text.old }
{
    let Some(last) = text.iter().rposition(|byte| *byte == b'\n') else {
        return text.len();
    };
    answer_each(rt, &text[..last], out);
    text.copy_within(last + 1.., 0);
    text.len() - last - 1
}

// Answers the last line, which has no line end.
fn answer_rest(rt: &impl Print, text: &[u8], out: &mut [u8]) {
    if !text.is_empty() {
        let made = line::answer(text, out, 0);
        files::print(rt, out, made);
    }
}

// Reads on after the `have` bytes that wait, and answers what it can: a line that fills the buffer is too long.
fn read_on<R: Read>(
    rt: &impl Print,
    input: &mut R,
    buf: &mut [u8],
    out: &mut [u8],
    have: usize,
) -> State
    requires { have ≤ length buf.old }
    ensures fits { waiting result ≤ length buf.new }
    ensures left { (more : List ℕ) × Consumes (R.remaining input.old) (R.remaining input.new) more
        × ReadOn result (take have buf.old) more buf.new }
{
    let more = read(input, &mut buf[have..]);
    if more == 0 {
        answer_rest(rt, &buf[..have], out);
        return State::Ended;
    }
    let left = answer_lines(rt, &mut buf[..have + more], out);
    if left < buf.len() {
        return State::Waiting(left);
    }
    let made = line::too_long(out, 0);
    files::print(rt, out, made);
    State::Skipping
}

// Reads on in a line that is too long, and answers what stands after its end.
fn skip<R: Read>(rt: &impl Print, input: &mut R, buf: &mut [u8], out: &mut [u8]) -> State
    ensures fits { waiting result ≤ length buf.new }
    ensures left { (more : List ℕ) × Consumes (R.remaining input.old) (R.remaining input.new) more
        × Skipped result more buf.new }
{
    let n = read(input, buf);
    if n == 0 {
        return State::Ended;
    }
    let Some(end) = buf[..n].iter().position(|byte| *byte == b'\n') else {
        return State::Skipping;
    };
    buf.copy_within(end + 1..n, 0);
    State::Waiting(answer_lines(rt, &mut buf[..n - end - 1], out))
}

// A proved loop has to end, and nothing says that the input does: so it counts its turns, to a number that no run uses up.
fn serve(rt: &impl Print, input: &mut impl Read, buf: &mut [u8], out: &mut [u8]) {
    let mut state = State::Waiting(0);
    for _ in 0..u64::MAX {
        state = match state {
            State::Waiting(have) => read_on(rt, input, buf, out, have),
            State::Skipping => skip(rt, input, buf, out),
            State::Ended => return,
        };
    }
}

fn main(rt: HostRuntime) {
    let mut buf = [0u8; 65536];
    let mut out = [0u8; 131072];
    serve(&rt, &mut rt.stdin(), &mut buf, &mut out);
}
