// Whole numbers in decimal, written and read.
ghost use Rattle.std.specs.Prelude.{◌≡◌, ◌∷◌, ◌+◌, ◌≤◌, ◌<◌, ◌^◌, length};
ghost use Rattle.std.proofs.lemmas.List.Edits.{sets};
ghost use Rattle.text.specs.Decimal.{digits, decimal};
ghost use Rattle.text.specs.Number.{digits_found, digits_at, minus_at, plus_at, number_at};
ghost use Rattle.text.specs.Room.{put_answer, put_bytes};

// How many digits a number has.
fn width(n: u64) -> usize
    ensures { result ≡ length (digits n) }
{
    // Most numbers that are written are short, which asks for no logarithm.
    if n < 10 {
        return 1;
    }
    if n < 100 {
        return 2;
    }
    if n < 1000 {
        return 3;
    }
    match n.checked_ilog10() {
        Some(k) => k as usize + 1,
        None => 1,
    }
}

// Stores the digits of a number, `k` of them from `at` on, the last first.
fn fill_digits(out: &mut [u8], at: usize, k: usize, n: u64)
    requires { (at + k ≤ length out.old) × (k ≡ length (digits n)) }
    ensures { out.new ≡ sets out.old at (digits n) }
{
    let mut m = n;
    for i in (at + 1..at + k).rev() {
        out[i] = b'0' + (m % 10) as u8;
        m = m / 10;
    }
    out[at] = b'0' + m as u8;
}

// Writes a number from 0 up. Where it doesn't fit the buffer is kept.
pub fn put_natural(out: &mut [u8], at: usize, n: u64) -> Option<usize>
    ensures { (result ≡ put_answer out.old at (digits n)) × (out.new ≡ put_bytes out.old at (digits n)) }
{
    let k = width(n);
    let end = crate::end_at(out, at, k)?;
    fill_digits(out, at, k, n);
    Some(end)
}

// Writes `-` and a number from 0 up.
fn put_below(out: &mut [u8], at: usize, n: u64) -> Option<usize>
    ensures { (result ≡ put_answer out.old at (45 ∷ digits n)) × (out.new ≡ put_bytes out.old at (45 ∷ digits n)) }
{
    let k = width(n);
    let end = crate::end_at(out, at, k + 1)?;
    out[at] = b'-';
    fill_digits(out, at + 1, k, n);
    Some(end)
}

// Writes a number. Where it doesn't fit the buffer is kept.
pub fn put_number(out: &mut [u8], at: usize, n: i64) -> Option<usize>
    ensures { (result ≡ put_answer out.old at (decimal n)) × (out.new ≡ put_bytes out.old at (decimal n)) }
{
    let m = whole::magnitude(n);
    if n < 0 {
        put_below(out, at, m)
    } else {
        put_natural(out, at, m)
    }
}

// Digits at a place, `n` of them, that make `v`: not there if there are none, or if `v` is above 2^63.
fn found(at: usize, n: usize, v: u64) -> Option<(u64, usize)>
    requires { at + n < 2 ^ 64 }
    ensures { result ≡ digits_found at n v }
{
    if n == 0 || 9223372036854775808 < v {
        None
    } else {
        Some((v, at + n))
    }
}

// The number of the digits at a place, and the place after them.
fn get_digits(s: &[u8], at: usize) -> Option<(u64, usize)>
    ensures { result ≡ digits_at s.now at }
{
    let rest = crate::rest(s, at);
    let mut v: u64 = 0;
    for (n, b) in rest.iter().enumerate() {
        let Some(d) = (*b as char).to_digit(10) else {
            return found(at, n, v);
        };
        // One test for the product and the sum: with a digit more they would be above 2^63.
        if 922337203685477580 < v {
            return None;
        }
        v = v * 10 + d as u64;
    }
    found(at, rest.len(), v)
}

// The number whose `-` stands before the place.
fn get_minus(s: &[u8], at: usize) -> Option<(i64, usize)>
    ensures { result ≡ minus_at s.now at }
{
    let (m, e) = get_digits(s, at)?;
    Some((0i64.checked_sub_unsigned(m)?, e))
}

fn get_plus(s: &[u8], at: usize) -> Option<(i64, usize)>
    ensures { result ≡ plus_at s.now at }
{
    let (m, e) = get_digits(s, at)?;
    Some((i64::try_from(m).ok()?, e))
}

// Reads a number: digits, or `-` and digits. It answers the number and the place after it, if there is one that is an i64.
// Inlined, since programs read many numbers and would call it for each.
#[inline]
pub fn get_number(s: &[u8], at: usize) -> Option<(i64, usize)>
    ensures { result ≡ number_at s.now at }
{
    if crate::word::begins_with(s, at, b"-") {
        get_minus(s, at + 1)
    } else {
        get_plus(s, at)
    }
}
