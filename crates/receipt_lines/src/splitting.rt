//! Takes bytes apart: a text into lines, and a line of two words.
ghost use Rattle.std.specs.Prelude.{◌≡◌, ◌∷◌, ◌++◌, ◌==◌, false, drop, slice_get, MatchOption};
ghost use Rattle.std.specs.List.{All};
ghost use Rattle.std.specs.Option.{option_map};
ghost use Rattle.script_text.specs.Lines.{lines_of, words_of};
ghost use Rattle.receipt_lines.specs.Evidence.{second_word};

use memchr::memchr;

/// The first line of a text, without its end, if there is one, and what is behind it.
pub(crate) fn split_line(text: &[u8]) -> (Option<&[u8]>, &[u8])
    ensures first { option_map (λ line. line.now) result.0 ≡ slice_get (lines_of text.now) 0 }
    ensures behind { lines_of result.1.now ≡ drop 1 (lines_of text.now) }
{
    if text.is_empty() {
        return (None, text);
    }
    match split_once(text, b'\n') {
        Some((line, behind)) => (Some(line), behind),
        None => (Some(text), &[]),
    }
}

/// The second word of a line of two words, of which this is the first.
pub(crate) fn second_word<'a>(line: &'a [u8], word: &[u8]) -> Option<&'a [u8]>
    ensures value { option_map (λ second. second.now) result ≡ second_word word.now (words_of line.now) }
{
    let (first, behind) = split_once(line, b' ')?;
    if first != word {
        return None;
    }
    match split_once(behind, b' ') {
        Some(_) => None,
        None => Some(behind),
    }
}

// What is before the first of these bytes, and what is behind it.
fn split_once(bytes: &[u8], byte: u8) -> Option<(&[u8], &[u8])>
    ensures parts { MatchOption result
        (All (λ b. (b == byte) ≡ false) bytes.now)
        (λ parts. (bytes.now ≡ parts.0.now ++ byte ∷ parts.1.now)
        × All (λ b. (b == byte) ≡ false) parts.0.now) }
{
    match memchr(byte, bytes) {
        Some(place) => Some((&bytes[..place], &bytes[place + 1..])),
        None => None,
    }
}
