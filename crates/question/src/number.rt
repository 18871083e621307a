// The family `number`: the common divisor and the common multiple of two numbers.
ghost use Rattle.std.specs.Prelude.{◌≡◌};
ghost use Rattle.question.specs.Number.{exact_answer, number_answer};

use crate::answer::Answer;
use crate::answer::NotAnswered::{self, NotUnderstood};
use crate::take::{name, two};
use refusal::Refusal;

// A number that fits.
fn exact(n: Option<i64>) -> Result<Answer, NotAnswered>
    ensures { result ≡ exact_answer n }
{
    let fits = n.ok_or(Refusal::DoesNotFit)?;
    Ok(Answer::Number(Some(fits)))
}

// The answer to what stands after the family's name.
pub fn answer(line: &[u8], at: usize) -> Result<Answer, NotAnswered>
    ensures { result ≡ number_answer line.now at }
{
    let (op, next) = name(line, at);
    let (a, b) = two(line, next).ok_or(NotUnderstood)?;
    match op {
        b"gcd" => exact(whole::gcd(a, b)),
        b"lcm" => exact(whole::lcm(a, b)),
        _ => Err(NotUnderstood),
    }
}
