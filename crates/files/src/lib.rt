// What a program reads: its arguments, standard input, or the file that an argument names. And what it writes, to standard output.
#![tactic(auto)]

ghost use Rattle.std.specs.Prelude.{◌≤◌, length, IfOk, IfSome};

use std::env::{Env, FillError};
use std::io::Read;
use std::rt::Files;
use std::{fs, io};

// No path has as many bytes, and an argument that has more is read as an empty one.
pub const ARGUMENT: usize = 4096;

// Writes the first `made` bytes.
// A length beside the buffer stays: `print` takes any number, one past the end too, and asks nothing of its caller.
pub fn print(rt: &impl Print, out: &[u8], made: usize) {
    if let Some(bytes) = out.get(..made) {
        write(rt, bytes);
    }
}

// A write that fails is let go: the programs go on to the next.
fn write(rt: &impl Print, bytes: &[u8]) {
    let _ = rt.write_all(bytes);
}

// Reads until the buffer is full or the input ends, and answers how many bytes stand at the start of the buffer then.
// By hand, since `read_exact` doesn't tell how many, where the input ends first.
fn read_all(input: &mut impl Read, buf: &mut [u8]) -> io::Result<usize>
    ensures { IfOk result (λ n. n ≤ length buf.new) }
{
    let mut have = 0;
    while have < buf.len() {
        match input.read(&mut buf[have..])? {
            0 => break,
            more => have += more,
        }
    }
    Ok(have)
}

// A line that begins with a name.
fn write_line(rt: &impl Print, name: &[u8], rest: &[u8]) {
    write(rt, name);
    write(rt, rest);
}

// Answers how many bytes stand at the start of the buffer: all there are, or as many as it has room for. Or none, where standard input
// can't be read, and a line has said so.
pub fn standard_input(rt: &(impl Input + Print), buf: &mut [u8]) -> Option<usize>
    ensures { IfSome result (λ n. n ≤ length buf.new) }
{
    let found = read_all(&mut rt.reader(), buf).ok();
    if found.is_none() {
        write_line(rt, b"standard input", b": cannot be read\n");
    }
    found
}

// Puts argument i at the start of the buffer, and answers how long it is: 0 where it is missing, or longer than the buffer.
pub fn argument(rt: &impl Env, i: usize, buf: &mut [u8]) -> usize
    ensures { result ≤ length buf.new }
{
    rt.arg(i, buf).unwrap_or(0)
}

// How many arguments there are, the program's own name among them.
pub fn argument_count(rt: &impl Env) -> usize {
    let mut none = [0u8; 1];
    for i in 0..usize::MAX {
        if let Err(FillError::NotPresent) = rt.arg(i, &mut none) {
            return i;
        }
    }
    usize::MAX
}

// A path is text to std: a name that is not UTF-8 names no file.
fn read_named(rt: &impl Files, name: &[u8], buf: &mut [u8]) -> Option<usize>
    ensures { IfSome result (λ n. n ≤ length buf.new) }
{
    let path = str::from_utf8(name).ok()?;
    let mut file = fs::open(rt, path).ok()?;
    read_all(&mut file, buf).ok()
}

// Reads the file that argument i names, and answers as `standard_input` does; a line before what follows has its name if it is headed.
pub fn named(
    rt: &(impl Env + Files + Print),
    i: usize,
    headed: bool,
    buf: &mut [u8],
) -> Option<usize>
    ensures { IfSome result (λ n. n ≤ length buf.new) }
{
    let mut room = [0u8; ARGUMENT];
    let n = argument(rt, i, &mut room);
    let name = &room[..n];
    let found = read_named(rt, name, buf);
    if found.is_none() {
        write_line(rt, name, b": cannot be read\n");
    } else if headed {
        write_line(rt, name, b":\n");
    }
    found
}
