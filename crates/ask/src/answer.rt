// The text of an answer.
ghost use Rattle.say.specs.Said.{Puts};
ghost use Rattle.ask.specs.Answer.{answer_said};

use question::answer::{Answer, NotAnswered};
use say::Page;

// Puts the answer's text on the page.
pub(crate) fn say(page: &mut Page, a: Result<Answer, NotAnswered>)
    ensures { Puts (answer_said a) page.old page.new }
{
    match a {
        Ok(Answer::Sign(s)) => page.sign(s),
        Ok(Answer::Range(size, i)) => page.interval_at(size, i),
        Ok(Answer::Ranges(p)) => page.intervals(p),
        Ok(Answer::Spacing(c)) => page.congruence(c),
        Ok(Answer::Order(o)) => page.order(o),
        Ok(Answer::Truth(t)) => page.truth(t),
        Ok(Answer::Number(Some(n))) => page.number(n),
        Ok(Answer::Number(None)) => page.none(),
        Err(NotAnswered::Refused(r)) => page.refused(r),
        Err(NotAnswered::NotUnderstood) => page.not_understood(),
    }
}
