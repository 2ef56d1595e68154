//! What the words behind `run` and `gen` say of a host: its numbers, and where its logs go.
ghost use Rattle.std.specs.Prelude.{◌≡◌, ◌==◌, Some, None, IfOk, codes, true};
ghost use Rattle.clap.specs.Words.{first_of, found_of, rows_of};
ghost use Rattle.program_words.specs.HostWords.{are_key_bits, hot_in, is_shard_count, key_bits_in, shards_in, numbers_in};

use crate::found::{flag_of, word_of};
use crate::key::Key;
use crate::numbers::{needed, optional};
use clap::ArgMatches;
use std::alloc::{AllocError, Global};
use std::marker::Model;

// The most verifiers of a host.
const MOST_VERIFIERS: u32 = 64;

// The greatest threshold of touches at which a key becomes hot.
const MOST_TOUCHES: u32 = 1_000_000;

// The greatest value at which the counters of an epoch may end. It is also the one that is taken where none is given.
const GREATEST_END: u32 = 16_777_215;

// The first version of the format, which is also the one that is taken where none is given, and the last one.
const FIRST_VERSION: u32 = 1;

pub(crate) const LAST_VERSION: u32 = 3;

// How many bits a key has where no number is given, and the other number that can be given in the last version.
const SHORT_KEYS: u32 = 64;

const LONG_KEYS: u32 = 128;

/// The numbers of a host, as words give them.
#[derive(Clone, Copy, Debug, PartialEq, Eq)]
pub struct HostNumbers {
    /// How many verifiers it has.
    pub verifiers: u16,
    /// How many shards it has.
    pub shards: u32,
    /// How often a key is touched in an epoch, at least, so that it becomes hot. Without it no key does, and where epochs roll
    /// there is none.
    pub hot: Option<u32>,
    /// The first epoch.
    pub first: u32,
    /// The last value of the counter in an epoch.
    pub counter: u32,
    /// Which version of the format its bundle has.
    pub version: u8,
    /// How many bits a key has.
    pub bits: u8,
    /// Whether a get of a key that was never put makes no record of it.
    pub absent: bool,
    /// Whether its epochs roll.
    pub rolling: bool,
}

/// A path, as a word gives it. Contracts see its bytes.
#[derive(Drop)]
pub struct PathWord {
    text: String,
}

impl Model for PathWord {
    ghost use Rattle.std.specs.Prelude.{ℕ, List, string_bytes};

    ghost Value = { List ℕ };

    ghost view = { λ p. string_bytes p.text };
}

impl PathWord {
    /// A path of this text.
    pub fn new(alloc: Global, text: &str) -> Result<PathWord, AllocError>
        ensures value { IfOk result (λ path. path ≡ text.now) }
    {
        Ok(PathWord {
            text: String::from_str(alloc, text)?,
        })
    }

    /// Its text.
    pub fn as_str(&self) -> &str
        ensures value { result.now ≡ self.now }
    {
        self.text.as_str()
    }
}

/// What a script is to be served with.
#[derive(Drop)]
pub struct RunWords {
    /// The key of the verifiers.
    pub key: Key,
    pub numbers: HostNumbers,
    /// What the vault is to be named, if it is.
    pub logs: Option<PathWord>,
    /// Whether the report is to have receipts.
    pub receipts: bool,
}

// The numbers in what was found of a command's options, if each that is needed is there and each is in its range.
pub(crate) fn numbers_of(found: &ArgMatches<'_>) -> Option<HostNumbers>
    ensures value { result ≡ numbers_in (rows_of (found_of found.now)) }
{
    let verifiers = needed(found, "verifiers", 1, MOST_VERIFIERS)?;
    let shards = shards_of(found)?;
    let rolling = flag_of(found, "rolling");
    let hot = hot_of(found, rolling)?;
    let first = optional(found, "first", 0, u32::MAX)?;
    let counter = optional(found, "counter", 1, GREATEST_END)?;
    let version = optional(found, "format", FIRST_VERSION, LAST_VERSION)?;
    let version = version.unwrap_or(FIRST_VERSION);
    let bits = key_bits_of(found, version)?;
    Some(HostNumbers {
        verifiers: verifiers as u16,
        shards,
        hot,
        first: first.unwrap_or(0),
        counter: counter.unwrap_or(GREATEST_END),
        version: version as u8,
        bits,
        absent: flag_of(found, "absent"),
        rolling,
    })
}

// The path that names the vault, if one was given.
pub(crate) fn logs_of(alloc: Global, found: &ArgMatches<'_>) -> Result<Option<PathWord>, AllocError>
    ensures value { IfOk result (λ logs. logs ≡ first_of (codes "logs") (rows_of (found_of found.now))) }
{
    match word_of(found, "logs") {
        Some(text) => Ok(Some(PathWord::new(alloc, text)?)),
        None => Ok(None),
    }
}

// How many shards there are to be.
fn shards_of(found: &ArgMatches<'_>) -> Option<u32>
    ensures value { result ≡ shards_in (first_of (codes "shards") (rows_of (found_of found.now))) }
{
    match needed(found, "shards", 2, 1024) {
        Some(shards) if is_shard_count(shards) => Some(shards),
        _ => None,
    }
}

// Whether there can be so many shards.
fn is_shard_count(shards: u32) -> bool
    ensures value { result ≡ is_shard_count shards }
{
    matches!(shards, 2 | 4 | 8 | 16 | 32 | 64 | 128 | 256 | 512 | 1024)
}

// The threshold of touches at which a key becomes hot, if one is to be: none where epochs roll.
fn hot_of(found: &ArgMatches<'_>, rolling: bool) -> Option<Option<u32>>
    ensures value { result ≡ hot_in rolling (first_of (codes "hot") (rows_of (found_of found.now))) }
{
    match optional(found, "hot", 1, MOST_TOUCHES)? {
        Some(_) if rolling => None,
        hot => Some(hot),
    }
}

// How many bits a key is to have in this version of the format.
pub(crate) fn key_bits_of(found: &ArgMatches<'_>, version: u32) -> Option<u8>
    ensures value { result ≡ key_bits_in version (first_of (codes "bits") (rows_of (found_of found.now))) }
{
    match optional(found, "bits", SHORT_KEYS, LONG_KEYS)? {
        Some(bits) if are_key_bits(version, bits) => Some(bits as u8),
        Some(_) => None,
        None => Some(SHORT_KEYS as u8),
    }
}

// Whether a key can be asked to have so many bits in this version of the format.
fn are_key_bits(version: u32, bits: u32) -> bool
    ensures value { result ≡ are_key_bits version bits }
{
    version == LAST_VERSION && (bits == SHORT_KEYS || bits == LONG_KEYS)
}
