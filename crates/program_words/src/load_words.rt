//! What the words behind `gen` say: how a load is made, and which host is to serve it.
ghost use Rattle.std.specs.Prelude.{◌≡◌};
ghost use Rattle.clap.specs.Words.{found_of, rows_of};
ghost use Rattle.program_words.specs.LoadWords.{load_in};

use crate::host_words::{HostNumbers, PathWord};
use crate::key::Key;
use crate::numbers::{needed, needed_wide, optional};
use clap::ArgMatches;

// The most requests of a load.
const MOST_OPS: u32 = 1_000_000;

// The most keys that a load asks a worker for, and how many they are where no number is given.
const MOST_KEYS: u32 = 65_536;

const USUAL_KEYS: u32 = 1_024;

// The most requests behind which an epoch closes, and how many they are where no number is given.
const MOST_EVERY: u32 = 1_000_000;

const USUAL_EVERY: u32 = 10_000;

/// How a load is made, as words say it.
#[derive(Clone, Copy, Debug, PartialEq, Eq)]
pub struct LoadNumbers {
    /// The number from which it is made.
    pub seed: u64,
    /// How many requests it has.
    pub ops: u32,
    /// How many keys a worker is asked for.
    pub keys: u32,
    /// Behind how many requests an epoch closes each time.
    pub every: u32,
}

/// Which load is to be made, and what it is to be served with.
#[derive(Drop)]
pub struct GenWords {
    /// The key of the verifiers.
    pub key: Key,
    pub load: LoadNumbers,
    pub numbers: HostNumbers,
    /// What the vault is to be named, if it is.
    pub logs: Option<PathWord>,
}

// How a load is made, in what was found of a command's options, if each number that is needed is there and each is in its
// range.
pub(crate) fn load_of(found: &ArgMatches<'_>) -> Option<LoadNumbers>
    ensures value { result ≡ load_in (rows_of (found_of found.now)) }
{
    let seed = needed_wide(found, "seed", 0, u64::MAX)?;
    let ops = needed(found, "ops", 0, MOST_OPS)?;
    let keys = optional(found, "keys", 1, MOST_KEYS)?;
    let every = optional(found, "every", 1, MOST_EVERY)?;
    Some(LoadNumbers {
        seed,
        ops,
        keys: keys.unwrap_or(USUAL_KEYS),
        every: every.unwrap_or(USUAL_EVERY),
    })
}
