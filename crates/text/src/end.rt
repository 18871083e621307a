// The ends of a range: MAX of the width is `inf`, MIN is `-inf`, any other number itself.
ghost use Rattle.std.specs.Prelude.{◌≡◌};
ghost use Rattle.whole.specs.Sized.{width_of};
ghost use Rattle.text.specs.End.{end_text};
ghost use Rattle.text.specs.Room.{put_answer, put_bytes};

use whole::Size;

// Writes an end of a range. Where it doesn't fit the buffer is kept.
pub fn put_end(out: &mut [u8], at: usize, size: Size, n: i64) -> Option<usize>
    ensures { (result ≡ put_answer out.old at (end_text (width_of size) n)) × (out.new ≡ put_bytes out.old at (end_text (width_of size) n)) }
{
    if n == size.greatest() {
        return crate::word::put_word(out, at, b"inf");
    }
    if n == size.least() {
        return crate::word::put_word(out, at, b"-inf");
    }
    crate::decimal::put_number(out, at, n)
}
