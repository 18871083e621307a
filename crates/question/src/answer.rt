// What a question is answered, of every family; or why it isn't.
ghost use Rattle.std.specs.Prelude.{◌≡◌};
ghost use Rattle.question.specs.declared.answer.NotAnswered.TheVariants.{Refused};

use congruence::Congruence;
use interval::{Interval, Pair};
use refusal::Refusal;
use sign::Sign;
use std::cmp::Ordering;
use whole::Size;

#[derive(Clone, Copy)]
pub enum Answer {
    Sign(Sign),
    // of numbers of a width
    Range(Size, Interval),
    Ranges(Pair),
    Spacing(Congruence),
    Order(Option<Ordering>),
    Truth(bool),
    // a number, if there is one
    Number(Option<i64>),
}

// Why a question has no answer.
#[derive(Clone, Copy)]
pub enum NotAnswered {
    Refused(Refusal),
    NotUnderstood,
}

impl From<Refusal> for NotAnswered {
    ghost from_gives = { λ r e. e ≡ Refused r };

    fn from(r: Refusal) -> NotAnswered {
        NotAnswered::Refused(r)
    }
}

// An interval of 64 bits.
pub(crate) fn range(i: Interval) -> Answer {
    Answer::Range(Size::B64, i)
}
