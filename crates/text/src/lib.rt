// Text for programs: numbers in decimal, the ends of a range, words, and bytes in hexadecimal.
// A buffer and a place in it are two arguments, as the promises have them (`put_answer out at`, `number_at s at`).
#![tactic(auto)]

ghost use Rattle.std.specs.Prelude.{◌≡◌, ◌+◌, ◌≤◌, length, drop, SomeIff};

pub mod decimal;
pub mod end;
pub mod hex;
pub mod word;

// The place after `k` bytes that are put at a place of a lent buffer, if they fit.
fn end_at(out: &[u8], at: usize, k: usize) -> Option<usize>
    ensures { SomeIff result (at + k ≤ length out.now) (at + k) }
{
    let end = at.checked_add(k)?;
    if end <= out.len() { Some(end) } else { None }
}

// The bytes from a place on; past the end there are none.
fn rest(s: &[u8], at: usize) -> &[u8]
    ensures { result.now ≡ drop at s.now }
{
    s.get(at..).unwrap_or(&[])
}
