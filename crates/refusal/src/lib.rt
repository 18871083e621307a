// The numbered refusals of document 01, and the number of each.
#![tactic(auto)]

ghost use Rattle.std.specs.Prelude.{◌≡◌};
ghost use Rattle.refusal.specs.Number.{number_of};
ghost use Rattle.refusal.specs.declared.Fault.TheVariants.{By};

#[derive(Clone, Copy, PartialEq, Eq, Debug)]
pub enum Refusal {
    // 1: not in the domain, an operator outside 2 to 15, an unused field, a count that four doesn't divide.
    NotInDomain,
    // 2: a number formed on the way doesn't fit.
    DoesNotFit,
    // 3: the Rust's `from` would assert.
    WouldAssert,
    // 4: an operator or a sign on which the Rust panics.
    WouldPanic,
    // 5: the bytes end early.
    EndsEarly,
    // 6: a number that is not shortest, or 2^64 or more.
    NotShortest,
    // 7: an unknown operator.
    UnknownOperator,
    // 8: an operand that names no earlier step.
    NotEarlier,
    // 9: a low end above the high end.
    LowAboveHigh,
    // 10: more than 256 steps.
    TooManySteps,
    // 11: bytes left over.
    LeftOver,
    // 12: a divisor that is or may be 0.
    DivisorZero,
    // 13: a step's result that doesn't or may not fit.
    ResultTooWide,
    // 14: an operand of a logical step that is or may be neither 0 nor 1.
    NotLogical,
    // 15: the number of inputs is wrong, or one is out of its range.
    InputsWrong,
    // 16: the lent room is shorter than needed.
    NoRoom,
}

impl Refusal {
    // A match and no numbered variants, which could not be exchanged as the edit two_numbers_exchanged does.
    // The number that document 01 gives the refusal.
    pub fn number(self) -> u8
        ensures { result ≡ number_of self }
    {
        match self {
            Refusal::NotInDomain => 1,
            Refusal::DoesNotFit => 2,
            Refusal::WouldAssert => 3,
            Refusal::WouldPanic => 4,
            Refusal::EndsEarly => 5,
            Refusal::NotShortest => 6,
            Refusal::UnknownOperator => 7,
            Refusal::NotEarlier => 8,
            Refusal::LowAboveHigh => 9,
            Refusal::TooManySteps => 10,
            Refusal::LeftOver => 11,
            Refusal::DivisorZero => 12,
            Refusal::ResultTooWide => 13,
            Refusal::NotLogical => 14,
            Refusal::InputsWrong => 15,
            Refusal::NoRoom => 16,
        }
    }
}

// Why a call over a sheet is refused, and where.
#[derive(Clone, Copy, PartialEq, Eq, Debug)]
pub enum Fault {
    // With the step: 1 and 7 to 10 of a list that is to be written, 12 to 14 of a run or a check.
    AtStep(Refusal, usize),
    // With the place of the byte: 5 to 11.
    AtByte(Refusal, usize),
    // With no place: 1 of a list's length, 15 and 16.
    By(Refusal),
}

impl From<Refusal> for Fault {
    ghost from_gives = { λ refusal fault. fault ≡ By refusal };

    fn from(refusal: Refusal) -> Fault {
        Fault::By(refusal)
    }
}
