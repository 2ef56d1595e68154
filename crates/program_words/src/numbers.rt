//! Numbers of options: decimal digits, in a range.
ghost use Rattle.std.specs.Prelude.{◌≡◌, ◌≤◌, ◌==◌, true};
ghost use Rattle.std.specs.Char.{is_ascii_digit};
ghost use Rattle.std.specs.List.{list_all};
ghost use Rattle.clap.specs.Words.{first_of, found_of, rows_of};
ghost use Rattle.program_words.specs.Numbers.{begins_well, is_numeral, needed_in, number_between, optional_in};

use crate::found::word_of;
use clap::ArgMatches;

// The number of an option that is to be given.
pub(crate) fn needed(found: &ArgMatches<'_>, name: &str, least: u32, most: u32) -> Option<u32>
    ensures value { result ≡ needed_in least most (first_of name.now (rows_of (found_of found.now))) }
{
    match word_of(found, name) {
        Some(word) => small_between(word, least, most),
        None => None,
    }
}

// The same of up to 64 bits.
pub(crate) fn needed_wide(found: &ArgMatches<'_>, name: &str, least: u64, most: u64) -> Option<u64>
    ensures value { result ≡ needed_in least most (first_of name.now (rows_of (found_of found.now))) }
{
    match word_of(found, name) {
        Some(word) => number_between(word, least, most),
        None => None,
    }
}

// The number of an option that may be given, if it is. Where it is given and out of its range there is no answer.
pub(crate) fn optional(
    found: &ArgMatches<'_>,
    name: &str,
    least: u32,
    most: u32,
) -> Option<Option<u32>>
    ensures value { result ≡ optional_in least most (first_of name.now (rows_of (found_of found.now))) }
{
    match word_of(found, name) {
        Some(word) => small_between(word, least, most).map(Some),
        None => Some(None),
    }
}

// The number that a word spells in decimal, if it is in this range of 32 bits.
fn small_between(word: &str, least: u32, most: u32) -> Option<u32>
    ensures value { result ≡ number_between least most word.now }
{
    match number_between(word, u64::from(least), u64::from(most)) {
        Some(number) => Some(number as u32),
        None => None,
    }
}

// The number that a word spells in decimal, if it is in this range.
fn number_between(word: &str, least: u64, most: u64) -> Option<u64>
    ensures value { result ≡ number_between least most word.now }
{
    if !is_numeral(word.as_bytes()) {
        return None;
    }
    match word.parse::<u64>() {
        Ok(number) if least <= number && number <= most => Some(number),
        _ => None,
    }
}

// Whether these are digits, one or more, of which the first is no zero where others follow it.
fn is_numeral(word: &[u8]) -> bool
    ensures value { result ≡ is_numeral word.now }
{
    begins_well(word) && are_digits(word)
}

// Whether all of these are digits.
fn are_digits(word: &[u8]) -> bool
    ensures value { result ≡ list_all is_ascii_digit word.now }
{
    word.iter().all(|digit| digit.is_ascii_digit())
}

// Whether there is a first digit, and it is no zero where others follow it.
fn begins_well(word: &[u8]) -> bool
    ensures value { result ≡ begins_well word.now }
{
    match word {
        [] => false,
        [_] => true,
        [first, ..] => *first != b'0',
    }
}
