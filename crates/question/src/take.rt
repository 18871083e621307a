// Operands of a question: each stands after one space. A line and a place in it are two arguments, as in specs/Taken.
ghost use Rattle.std.specs.Prelude.{◌≡◌, ◌≤◌, ℕ, List, Option, length, IfSome};
ghost use Rattle.std.proofs.lemmas.List.Edits.{sets};
ghost use Rattle.question.specs.Taken.{number_after, one_after, two_after, numbers_after, count_after, name_after, next_after, AnsweredBy, TakenBy};

// A number, and the place after it. Inlined as `get_number` is.
#[inline]
pub fn number(line: &[u8], at: usize) -> Option<(i64, usize)>
    ensures { result ≡ number_after line.now at }
{
    if line.len() <= at {
        return None;
    }
    if line[at] == b' ' {
        text::decimal::get_number(line, at + 1)
    } else {
        None
    }
}

// One number that ends the line.
pub(crate) fn one(line: &[u8], at: usize) -> Option<i64>
    ensures { result ≡ one_after line.now at }
{
    let (a, p) = number(line, at)?;
    if p == line.len() { Some(a) } else { None }
}

// Two numbers that end the line.
pub(crate) fn two(line: &[u8], at: usize) -> Option<(i64, i64)>
    ensures { result ≡ two_after line.now at }
{
    let (a, p) = number(line, at)?;
    let b = one(line, p)?;
    Some((a, b))
}

// Operands to the end of the line, stored in the lent room: how many they are, if it has places for all.
pub(crate) fn operands<T: Drop, F: Fn(&[u8], usize) -> Option<(T, usize)>>(
    line: &[u8],
    at: usize,
    room: &mut [T],
    take: F,
) -> Option<usize>
    requires { F.IsAlwaysCallable take }
    ensures told { (f : List ℕ → ℕ → Option (T × ℕ)) → AnsweredBy (F.post take) f → TakenBy (f line.now) (length line.now) at room.old result room.new }
    ensures fits { IfSome result (λ n. n ≤ length room.old) }
{
    let mut at = at;
    for (n, place) in room.iter_mut().enumerate() {
        if at == line.len() {
            return Some(n);
        }
        let (operand, next) = take(line, at)?;
        *place = operand;
        at = next;
    }
    if at == line.len() {
        Some(room.len())
    } else {
        None
    }
}

// Numbers, stored in the lent room up to what is no number or the room's end: how many they are, if the line ends there.
pub fn numbers(line: &[u8], at: usize, room: &mut [i64]) -> Option<usize>
    ensures told { (result ≡ count_after line.now at (length room.old)) × (room.new ≡ sets room.old 0 (numbers_after line.now at (length room.old))) }
    ensures fits { IfSome result (λ n. n ≤ length room.old) }
{
    operands(line, at, room, number)
}

// A word after a space, which is empty if there is none, and the place after it.
pub fn name(line: &[u8], at: usize) -> (&[u8], usize)
    ensures { (result.0.now ≡ name_after line.now at) × (result.1 ≡ next_after line.now at) }
{
    if line.len() <= at || line[at] != b' ' {
        return (&[], at);
    }
    let word = text::word::word_at(line, at + 1);
    (word, at + 1 + word.len())
}
