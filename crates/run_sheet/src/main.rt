// Runs the sheet on standard input on the numbers that the arguments are. A word that is no number names a file, which is run on the
// numbers after it.
#![tactic(auto)]

mod printed;

ghost use Rattle.std.specs.Prelude.{◌≤◌, length};

use std::env::Env;
use std::ops::Range;
use std::rt::Files;

// The number that a word is, or none: it is a name.
fn number_of(word: &[u8]) -> Option<i64> {
    let (n, e) = text::decimal::get_number(word, 0)?;
    (e == word.len()).then_some(n)
}

fn number_at(rt: &impl Env, i: usize) -> Option<i64> {
    let mut word = [0u8; files::ARGUMENT];
    let n = files::argument(rt, i, &mut word);
    number_of(&word[..n])
}

fn is_name(rt: &impl Env, i: usize) -> bool {
    number_at(rt, i).is_none()
}

// Puts the numbers that the words begin with into the list, and answers how many there are. Those that it has no room for are left
// out: no sheet takes as many as it has room for.
fn take_inputs(rt: &impl Env, words: Range<usize>, inputs: &mut [i64]) -> usize
    ensures { result ≤ length inputs.new }
{
    let mut n = 0;
    for (place, i) in inputs.iter_mut().zip(words) {
        let Some(number) = number_at(rt, i) else {
            break;
        };
        *place = number;
        n += 1;
    }
    n
}

fn print_run(rt: &impl Print, bytes: &[u8], inputs: &[i64]) {
    let mut out = [0u8; printed::ROOM];
    let made = printed::run(bytes, inputs, &mut out);
    files::print(rt, &out, made);
}

// Prints the run of the bytes on the numbers that the words begin with.
fn run_on(rt: &(impl Env + Print), bytes: &[u8], words: Range<usize>) {
    let mut inputs = [0i64; 257];
    let n = take_inputs(rt, words, &mut inputs);
    print_run(rt, bytes, &inputs[..n]);
}

// Runs the files that the arguments name, each on the numbers after its name; no argument before the first is a name.
fn run_files(
    rt: &(impl Env + Files + Print),
    first: usize,
    count: usize,
    headed: bool,
    buf: &mut [u8],
) {
    for i in first..count {
        if !is_name(rt, i) {
            continue;
        }
        if let Some(n) = files::named(rt, i, headed, buf) {
            run_on(rt, &buf[..n], i + 1..count);
        }
    }
}

// Reading a sheet looks at no byte past place 5,378, so the answer to so many bytes is the answer to them all.
// The arguments are looked at up to the second name, which tells whether there are several.
fn main(rt: HostRuntime) {
    let mut buf = [0u8; 5379];
    let count = files::argument_count(&rt);
    let mut names = (1..count).filter(|i| is_name(&rt, *i));
    if let Some(first) = names.next() {
        let headed = names.next().is_some();
        run_files(&rt, first, count, headed, &mut buf);
    } else if let Some(n) = files::standard_input(&rt, &mut buf) {
        run_on(&rt, &buf[..n], 1..count);
    }
}
