// Checks the sheet on standard input, or those in the files that the arguments name, and prints what each step shows.
#![tactic(auto)]

mod printed;

use std::env::Env;
use std::rt::Files;

fn print_check(rt: &impl Print, bytes: &[u8]) {
    let mut out = [0u8; printed::ROOM];
    let made = printed::check(bytes, &mut out);
    files::print(rt, &out, made);
}

// Checks the files that the arguments name; with several, each under its name.
fn check_files(rt: &(impl Env + Files + Print), count: usize, buf: &mut [u8]) {
    for i in 1..count {
        if let Some(n) = files::named(rt, i, 2 < count, buf) {
            print_check(rt, &buf[..n]);
        }
    }
}

// Reading a sheet looks at no byte past place 5,378, so the answer to so many bytes is the answer to them all.
fn main(rt: HostRuntime) {
    let mut buf = [0u8; 5379];
    let count = files::argument_count(&rt);
    if 1 < count {
        check_files(&rt, count, &mut buf);
    } else if let Some(n) = files::standard_input(&rt, &mut buf) {
        print_check(&rt, &buf[..n]);
    }
}
