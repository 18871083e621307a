// The names that questions are made of, in one table, with one look-up.
ghost use Rattle.std.specs.Prelude.{◌≡◌};
ghost use Rattle.question.specs.Names.{name_of};

use sign::Sign;

#[derive(Clone, Copy)]
pub enum Name {
    // families
    At,
    Congruence,
    Interval,
    Mended,
    Number,
    Sheet,
    Sign,
    Transfer,
    // the shapes of a transfer
    Binary,
    Unary,
    // of the family `sheet`
    Check,
    Read,
    Run,
    Write,
    // operations, by the Rust's names
    Add,
    Bottom,
    Disjoint,
    Div,
    Equals,
    From,
    Greater,
    GreaterOrEqual,
    Join,
    Less,
    LessOrEqual,
    LogicalAnd,
    LogicalEq,
    LogicalNot,
    LogicalOr,
    MayEqualWhen,
    MaybeLeWhen,
    MaybeLessWhen,
    Meet,
    Mul,
    Narrow,
    Neg,
    OfInterval,
    OfNumber,
    OfSign,
    PartialCmp,
    Rem,
    Singleton,
    Smaller,
    StrictCmp,
    Sub,
    Top,
    WeakCmp,
    Widen,
    // truth values
    True,
    False,
    // a sign by its name
    Signed(Sign),
}

// Each name's text.
const NAMES: [(&[u8], Name); 58] = [
    (b"at", Name::At),
    (b"congruence", Name::Congruence),
    (b"interval", Name::Interval),
    (b"mended", Name::Mended),
    (b"number", Name::Number),
    (b"sheet", Name::Sheet),
    (b"sign", Name::Sign),
    (b"transfer", Name::Transfer),
    (b"binary", Name::Binary),
    (b"unary", Name::Unary),
    (b"check", Name::Check),
    (b"read", Name::Read),
    (b"run", Name::Run),
    (b"write", Name::Write),
    (b"add", Name::Add),
    (b"bottom", Name::Bottom),
    (b"disjoint", Name::Disjoint),
    (b"div", Name::Div),
    (b"equals", Name::Equals),
    (b"from", Name::From),
    (b"greater", Name::Greater),
    (b"greater_or_equal", Name::GreaterOrEqual),
    (b"join", Name::Join),
    (b"less", Name::Less),
    (b"less_or_equal", Name::LessOrEqual),
    (b"logical_and", Name::LogicalAnd),
    (b"logical_eq", Name::LogicalEq),
    (b"logical_not", Name::LogicalNot),
    (b"logical_or", Name::LogicalOr),
    (b"may_equal_when", Name::MayEqualWhen),
    (b"maybe_le_when", Name::MaybeLeWhen),
    (b"maybe_less_when", Name::MaybeLessWhen),
    (b"meet", Name::Meet),
    (b"mul", Name::Mul),
    (b"narrow", Name::Narrow),
    (b"neg", Name::Neg),
    (b"of_interval", Name::OfInterval),
    (b"of_number", Name::OfNumber),
    (b"of_sign", Name::OfSign),
    (b"partial_cmp", Name::PartialCmp),
    (b"rem", Name::Rem),
    (b"singleton", Name::Singleton),
    (b"smaller", Name::Smaller),
    (b"strict_cmp", Name::StrictCmp),
    (b"sub", Name::Sub),
    (b"top", Name::Top),
    (b"weak_cmp", Name::WeakCmp),
    (b"widen", Name::Widen),
    (b"true", Name::True),
    (b"false", Name::False),
    (b"Top", Name::Signed(Sign::Top)),
    (b"Bottom", Name::Signed(Sign::Bottom)),
    (b"Negative", Name::Signed(Sign::Negative)),
    (b"Zero", Name::Signed(Sign::Zero)),
    (b"Positive", Name::Signed(Sign::Positive)),
    (b"NonNeg", Name::Signed(Sign::NonNeg)),
    (b"NonZero", Name::Signed(Sign::NonZero)),
    (b"NonPos", Name::Signed(Sign::NonPos)),
];

// The name that a word is.
pub fn named(word: &[u8]) -> Option<Name>
    ensures { result ≡ name_of word.now }
{
    NAMES.iter().find(|row| row.0 == word).map(|row| row.1)
}

// The name that stands after a space, and the place after it.
pub(crate) fn name_at(line: &[u8], at: usize) -> Option<(Name, usize)> {
    let (word, next) = crate::take::name(line, at);
    Some((named(word)?, next))
}
