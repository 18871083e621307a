// Bytes in hexadecimal: two digits a byte. Upper case is written, both cases are read.
ghost use Rattle.std.specs.Prelude.{◌≡◌, ◌+◌, ◌*◌, ◌≤◌, ◌<◌, length, drop};
ghost use Rattle.std.proofs.lemmas.List.Edits.{sets};
ghost use Rattle.text.specs.Hex.{digit, hex_text, first_byte, hex_bytes, hex_answer};
ghost use Rattle.text.specs.Room.{put_answer, put_bytes};

// The digit of a number below sixteen.
fn digit_of(n: u8) -> u8
    requires { n < 16 }
    ensures { result ≡ digit n }
{
    if n < 10 { b'0' + n } else { b'A' - 10 + n }
}

fn fill_hex(out: &mut [u8], at: usize, bytes: &[u8])
    requires { at + length (hex_text bytes.now) ≤ length out.old }
    ensures { out.new ≡ sets out.old at (hex_text bytes.now) }
{
    for (j, b) in bytes.iter().enumerate() {
        let i = at + 2 * j;
        out[i] = digit_of(*b / 16);
        out[i + 1] = digit_of(*b % 16);
    }
}

// Writes bytes. Where they don't fit the buffer is kept.
pub fn put_hex(out: &mut [u8], at: usize, bytes: &[u8]) -> Option<usize>
    ensures { (result ≡ put_answer out.old at (hex_text bytes.now)) × (out.new ≡ put_bytes out.old at (hex_text bytes.now)) }
{
    let end = crate::end_at(out, at, 2 * bytes.len())?;
    fill_hex(out, at, bytes);
    Some(end)
}

// The byte whose two digits stand at a place.
fn byte_at(s: &[u8], i: usize) -> Option<u8>
    ensures { result ≡ first_byte (drop i s.now) }
{
    let [a, b, ..] = crate::rest(s, i) else {
        return None;
    };
    let high = (*a as char).to_digit(16)?;
    let low = (*b as char).to_digit(16)?;
    Some((high * 16 + low) as u8)
}

fn count_bytes(s: &[u8]) -> usize
    ensures { result ≡ length (hex_bytes s.now) }
{
    let most = s.len() / 2;
    for n in 0..most {
        let Some(_) = byte_at(s, 2 * n) else {
            return n;
        };
    }
    most
}

fn fill_bytes(s: &[u8], out: &mut [u8])
    requires { length (hex_bytes s.now) ≤ length out.old }
    ensures { out.new ≡ sets out.old 0 (hex_bytes s.now) }
{
    for j in 0..s.len() / 2 {
        let Some(b) = byte_at(s, 2 * j) else {
            return;
        };
        out[j] = b;
    }
}

// Reads the bytes whose digits stand at a place: as many as there are pairs of digits. It answers how many they are and
// the place after them; where the lent buffer has no room for them it is kept.
pub fn get_hex(s: &[u8], at: usize, out: &mut [u8]) -> Option<(usize, usize)>
    ensures { (result ≡ hex_answer s.now at out.old) × (out.new ≡ put_bytes out.old 0 (hex_bytes (drop at s.now))) }
{
    let text = crate::rest(s, at);
    let n = count_bytes(text);
    if out.len() < n {
        return None;
    }
    fill_bytes(text, out);
    Some((n, at + 2 * n))
}
