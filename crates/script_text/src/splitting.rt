//! Takes bytes apart: a script into lines, a line into words.
ghost use Rattle.std.specs.Prelude.{◌≡◌, ◌+◌, ◌<◌, ◌∷◌, ◌++◌, ◌==◌, false, length, MatchOption};
ghost use Rattle.std.specs.List.{All};
ghost use Rattle.std.specs.Option.{option_map};
ghost use Rattle.script_text.specs.Lines.{lines_of, words_of, words_behind};

use memchr::memchr;

/// The first line of a script, without its end, and what is behind it.
pub(crate) fn split_line(script: &[u8]) -> (&[u8], &[u8])
    requires some { 0 < length script.now }
    ensures lines { lines_of script.now ≡ result.0.now ∷ lines_of result.1.now }
    ensures shorter { length result.1.now < length script.now }
{
    match split_once(script, b'\n') {
        Some(parts) => parts,
        None => (script, &[]),
    }
}

/// The first word of a line, and what is behind the blank that ends it, if one does.
pub(crate) fn split_word(line: &[u8]) -> (&[u8], Option<&[u8]>)
    ensures words { words_of line.now
        ≡ result.0.now ∷ words_behind (option_map (λ behind. behind.now) result.1) }
{
    match split_once(line, b' ') {
        Some((word, behind)) => (word, Some(behind)),
        None => (line, None),
    }
}

// What is before the first of these bytes, and what is behind it.
fn split_once(bytes: &[u8], byte: u8) -> Option<(&[u8], &[u8])>
    ensures parts { MatchOption result
        (All (λ b. (b == byte) ≡ false) bytes.now)
        (λ parts. (bytes.now ≡ parts.0.now ++ byte ∷ parts.1.now)
        × All (λ b. (b == byte) ≡ false) parts.0.now) }
{
    match memchr(byte, bytes) {
        Some(place) => Some((&bytes[..place], &bytes[place + 1..])),
        None => None,
    }
}
