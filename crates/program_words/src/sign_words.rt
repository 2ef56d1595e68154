//! What the words behind `sign` say: which client signs, and how many bits a key has.
ghost use Rattle.std.specs.Prelude.{◌≡◌};
ghost use Rattle.clap.specs.Words.{found_of, rows_of};
ghost use Rattle.program_words.specs.SignWords.{sign_numbers_in};

use crate::host_words::{LAST_VERSION, key_bits_of};
use crate::key::Key;
use crate::numbers::needed;
use clap::ArgMatches;

// The greatest number of a client.
const GREATEST_CLIENT: u32 = 65_535;

/// Which client signs, and how many bits a key has, as words say it.
#[derive(Clone, Copy, Debug, PartialEq, Eq)]
pub struct SignNumbers {
    /// The client.
    pub client: u32,
    /// How many bits a key has.
    pub bits: u8,
}

/// What lines are to be signed with.
#[derive(Drop)]
pub struct SignWords {
    /// The key of the verifiers, of which the client's own is made.
    pub key: Key,
    pub numbers: SignNumbers,
}

// The numbers in what was found of the options of `sign`, if each is in its range and the client is there.
pub(crate) fn sign_numbers_of(found: &ArgMatches<'_>) -> Option<SignNumbers>
    ensures value { result ≡ sign_numbers_in (rows_of (found_of found.now)) }
{
    let client = needed(found, "client", 0, GREATEST_CLIENT)?;
    let bits = key_bits_of(found, LAST_VERSION)?;
    Some(SignNumbers { client, bits })
}
