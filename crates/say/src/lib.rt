// What the programs print: each method of a page puts its text after what is made already.
#![tactic(auto)]

ghost use Rattle.std.specs.Prelude.{◌≡◌, [], ◌∷◌, ◌++◌};
ghost use Rattle.refusal.specs.Number.{number_of};
ghost use Rattle.std.specs.Int.{w64};
ghost use Rattle.whole.specs.Sized.{width_of};
ghost use Rattle.text.specs.Ascii.{ascii};
ghost use Rattle.whole.specs.Choice.{pick};
ghost use Rattle.text.specs.Decimal.{decimal, digits};
ghost use Rattle.text.specs.End.{end_text};
ghost use Rattle.text.specs.Hex.{hex_text};
ghost use Rattle.say.specs.Names.{order_name, sign_name};
ghost use Rattle.say.specs.Said.{Puts};
ghost use Rattle.say.specs.Texts.{range_text, pair_text, spacing_text, spaced, refusal_text, place_text, place_line, count_line, not_understood};

use congruence::Congruence;
use interval::{Interval, Pair};
use refusal::Refusal;
use sign::Sign;
use std::cmp::Ordering;
use whole::Size;

fn order_name(o: Option<Ordering>) -> &'static [u8]
    ensures { result.now ≡ order_name o }
{
    match o {
        Some(Ordering::Less) => b"Less",
        Some(Ordering::Equal) => b"Equal",
        Some(Ordering::Greater) => b"Greater",
        None => b"None",
    }
}

// A table of names and no Display, whose contract would not say `Says (sign_name s ∷ [])` of an output that is full.
fn sign_name(s: Sign) -> &'static [u8]
    ensures { result.now ≡ sign_name s }
{
    match s {
        Sign::Top => b"Top",
        Sign::Bottom => b"Bottom",
        Sign::Negative => b"Negative",
        Sign::Zero => b"Zero",
        Sign::Positive => b"Positive",
        Sign::NonNeg => b"NonNeg",
        Sign::NonZero => b"NonZero",
        Sign::NonPos => b"NonPos",
    }
}

// Lent bytes for what is printed, and how many of them are made.
#[derive(Drop)]
pub struct Page<'a> {
    pub bytes: &'a mut [u8],
    pub made: usize,
}

impl Page<'_> {
    // What has no room is left out.
    pub fn word(&mut self, w: &[u8])
        ensures { Puts (w.now ∷ []) self.old self.new }
    {
        self.made = text::word::put_word(self.bytes, self.made, w).unwrap_or(self.made);
    }

    // Not one with natural: text puts a sign and digits in the one, digits alone in the other.
    pub fn number(&mut self, n: i64)
        ensures { Puts (decimal n ∷ []) self.old self.new }
    {
        self.made = text::decimal::put_number(self.bytes, self.made, n).unwrap_or(self.made);
    }

    fn after_space(&mut self, n: i64)
        ensures { Puts (ascii " " ∷ (decimal n ∷ [])) self.old self.new }
    {
        self.word(b" ");
        self.number(n);
    }

    // Numbers, each after a space.
    pub fn numbers(&mut self, list: &[i64])
        ensures { Puts (spaced list.now) self.old self.new }
    {
        for n in list {
            self.after_space(*n);
        }
    }

    pub fn natural(&mut self, n: u64)
        ensures { Puts (digits n ∷ []) self.old self.new }
    {
        self.made = text::decimal::put_natural(self.bytes, self.made, n).unwrap_or(self.made);
    }

    pub fn not_understood(&mut self)
        ensures { Puts not_understood self.old self.new }
    {
        self.word(b"not understood");
    }

    pub fn refused(&mut self, why: Refusal)
        ensures { Puts (refusal_text (number_of why)) self.old self.new }
    {
        self.word(b"refused by ");
        self.natural(why.number() as u64);
    }

    // A place and a refusal's number.
    pub fn place_by(&mut self, place: usize, why: Refusal)
        ensures { Puts (place_text place (number_of why)) self.old self.new }
    {
        self.natural(place as u64);
        self.word(b" by ");
        self.natural(why.number() as u64);
    }

    pub fn refused_at(&mut self, place: usize, why: Refusal)
        ensures { Puts (ascii "refused at " ∷ place_text place (number_of why)) self.old self.new }
    {
        self.word(b"refused at ");
        self.place_by(place, why);
    }

    pub fn stopped_at(&mut self, step: usize, why: Refusal)
        ensures { Puts (ascii "stopped at " ∷ place_text step (number_of why)) self.old self.new }
    {
        self.word(b"stopped at ");
        self.place_by(step, why);
    }

    // A line: words, a place and a refusal's number.
    pub fn place_line(&mut self, words: &[u8], place: usize, why: Refusal)
        ensures { Puts (place_line words.now place (number_of why)) self.old self.new }
    {
        self.word(words);
        self.place_by(place, why);
        self.word(b"\n");
    }

    // A line: words and a count.
    pub fn count_line(&mut self, words: &[u8], n: usize)
        ensures { Puts (count_line words.now n) self.old self.new }
    {
        self.word(words);
        self.natural(n as u64);
        self.word(b"\n");
    }

    fn range_end(&mut self, size: Size, n: i64)
        ensures { Puts (end_text (width_of size) n ∷ []) self.old self.new }
    {
        self.made = text::end::put_end(self.bytes, self.made, size, n).unwrap_or(self.made);
    }

    fn range(&mut self, size: Size, low: i64, high: i64)
        ensures { Puts (range_text (width_of size) low high) self.old self.new }
    {
        self.word(b"[");
        self.range_end(size, low);
        self.word(b", ");
        self.range_end(size, high);
        self.word(b"]");
    }

    // A range of numbers of a width.
    pub fn interval_at(&mut self, size: Size, i: Interval)
        ensures { Puts (range_text (width_of size) i.min i.max) self.old self.new }
    {
        self.range(size, i.min, i.max);
    }

    pub fn interval(&mut self, i: Interval)
        ensures { Puts (range_text w64 i.min i.max) self.old self.new }
    {
        self.interval_at(Size::B64, i);
    }

    // Two intervals, with a space between them.
    pub fn intervals(&mut self, p: Pair)
        ensures { Puts (pair_text p.left p.right) self.old self.new }
    {
        self.interval(p.left);
        self.word(b" ");
        self.interval(p.right);
    }

    pub fn congruence(&mut self, c: Congruence)
        ensures { Puts (spacing_text c.constant c.modulus) self.old self.new }
    {
        self.number(c.constant);
        self.word(b" mod ");
        self.number(c.modulus);
    }

    pub fn none(&mut self)
        ensures { Puts (ascii "None" ∷ []) self.old self.new }
    {
        self.word(b"None");
    }

    pub fn order(&mut self, o: Option<Ordering>)
        ensures { Puts (order_name o ∷ []) self.old self.new }
    {
        self.word(order_name(o));
    }

    pub fn sign(&mut self, s: Sign)
        ensures { Puts (sign_name s ∷ []) self.old self.new }
    {
        self.word(sign_name(s));
    }

    pub fn truth(&mut self, t: bool)
        ensures { Puts (pick t (ascii "true") (ascii "false") ∷ []) self.old self.new }
    {
        if t {
            self.word(b"true");
        } else {
            self.word(b"false");
        }
    }

    pub fn bytes(&mut self, b: &[u8])
        ensures { Puts (hex_text b.now ∷ []) self.old self.new }
    {
        self.made = text::hex::put_hex(self.bytes, self.made, b).unwrap_or(self.made);
    }
}
