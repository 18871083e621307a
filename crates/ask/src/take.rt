// Bytes of a question about sheets: hexadecimal digits, or `-` for none.
ghost use Rattle.std.specs.Prelude.{◌≤◌, length, IfSome};

// Bytes that stand after a space, stored in the lent room if it has places for all: how many they are, and the place after them.
pub(crate) fn bytes(line: &[u8], at: usize, room: &mut [u8]) -> Option<(usize, usize)>
    ensures { IfSome result (λ r. r.0 ≤ length room.old) }
{
    match line.get(at..)? {
        [b' ', b'-', ..] => Some((0, at + 2)),
        [b' ', ..] => {
            let (n, next) = text::hex::get_hex(line, at + 1, room)?;
            if n == 0 { None } else { Some((n, next)) }
        }
        _ => None,
    }
}
