//! The key of the verifiers.
ghost use Rattle.std.specs.Prelude.{◌≡◌, ◌≤◌, length};
ghost use Rattle.program_words.specs.Key.{key_in};

use arrayvec::ArrayVec;
use std::marker::Model;

/// The fewest bytes of a key.
pub const SHORTEST_KEY: usize = 16;

/// The most bytes of a key.
pub const LONGEST_KEY: usize = 64;

/// A key, of 16 to 64 bytes. Contracts see its bytes.
#[derive(Clone, Drop)]
pub struct Key {
    bytes: ArrayVec<u8, LONGEST_KEY>,
}

impl Model for Key {
    ghost use Rattle.std.specs.Prelude.{ℕ, ◌≤◌, List, length};

    ghost Value = { List ℕ };

    ghost view = { λ k. k.bytes.items };

    ghost invariant = { λ k. (16 ≤ length k.bytes.items) × (length k.bytes.items ≤ 64) };
}

impl Key {
    /// The key that these digits spell, if they spell one.
    pub fn from_hex(digits: &str) -> Option<Self>
        ensures value { result ≡ key_in digits.now }
    {
        if digits.len() < 2 * SHORTEST_KEY || digits.len() > 2 * LONGEST_KEY {
            return None;
        }
        let mut bytes = ArrayVec::from([0; LONGEST_KEY]);
        bytes.truncate(digits.len() / 2);
        match hex::decode_to_slice(digits.as_bytes(), bytes.as_mut_slice()) {
            Ok(()) => Some(Key { bytes }),
            Err(_) => None,
        }
    }

    /// Its bytes.
    pub fn as_slice(&self) -> &[u8]
        ensures bytes { result.now ≡ self.now }
        ensures enough { SHORTEST_KEY ≤ length result.now }
        ensures fits { length result.now ≤ LONGEST_KEY }
    {
        self.bytes.as_slice()
    }
}
