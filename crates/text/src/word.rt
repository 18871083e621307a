// Words: bytes up to the next space.
ghost use Rattle.std.specs.Prelude.{◌≡◌, ◌+◌, drop};
ghost use Rattle.text.specs.Room.{put_answer, put_bytes};
ghost use Rattle.text.specs.Word.{begins, letters, word_of};

// Writes a word, or any bytes. Where they don't fit the buffer is kept.
pub fn put_word(out: &mut [u8], at: usize, word: &[u8]) -> Option<usize>
    ensures { (result ≡ put_answer out.old at word.now) × (out.new ≡ put_bytes out.old at word.now) }
{
    let end = crate::end_at(out, at, word.len())?;
    out[at..end].copy_from_slice(word);
    Some(end)
}

// Whether the bytes from a place on begin with a word.
pub fn begins_with(s: &[u8], at: usize, word: &[u8]) -> bool
    ensures { result ≡ begins (drop at s.now) word.now }
{
    crate::rest(s, at).starts_with(word)
}

// The place after the word at a place. Its bytes are above the space, so that none is 0.
pub fn word_end(s: &[u8], at: usize) -> usize
    ensures { result ≡ at + letters (drop at s.now) }
{
    let rest = crate::rest(s, at);
    at + rest.iter().position(|b| *b < 33).unwrap_or(rest.len())
}

// The word at a place; past the end there is none.
pub fn word_at(s: &[u8], at: usize) -> &[u8]
    ensures { result.now ≡ word_of s.now at }
{
    s.get(at..word_end(s, at)).unwrap_or(&[])
}
