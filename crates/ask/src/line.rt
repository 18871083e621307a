// One line: a question about a sheet, or one that needs none.
use crate::answer;
use question::names::Name;
use say::Page;

// A line that is longer is not understood.
const LONGEST: usize = 32768;

// Says the answer to a question.
fn say(line: &[u8], page: &mut Page) {
    if LONGEST < line.len() {
        page.not_understood();
        return;
    }
    let family = text::word::word_at(line, 0);
    match question::names::named(family) {
        Some(Name::Sheet) => crate::sheets::say(line, family.len(), page),
        _ => answer::say(page, question::answer_to(line)),
    }
}

// The buffer and its length, and no page: a page that main lends again and again gets no generated proof.
// Puts the answer to a line after `made` bytes, with a line end, and answers the place after it.
pub(crate) fn answer(line: &[u8], out: &mut [u8], made: usize) -> usize {
    let mut page = Page { bytes: out, made };
    say(line, &mut page);
    page.word(b"\n");
    page.made
}

// The answer to a line that is too long.
pub(crate) fn too_long(out: &mut [u8], made: usize) -> usize {
    let mut page = Page { bytes: out, made };
    page.not_understood();
    page.word(b"\n");
    page.made
}
