//! HMAC-SHA-256 (RFC 2104) of eight texts at a time.
ghost use Rattle.std.specs.Prelude.{◌≡◌, ℕ, ◌<◌, length, map, bit_xor};
ghost use Rattle.lane_sha.specs.Hmac.{hmac_of_block};
ghost use Rattle.lane_sha.specs.Lanes.{lane_count, block};
ghost use Rattle.lane_sha.specs.Texts.{HaveOneCount, text};

use crate::start::Start;
use crate::texts::digests;
use std::fmt;
use std::marker::Model;
use std::simd::u8x64;

// The byte that masks the key before the text is hashed (RFC 2104, ipad).
const INNER_MASK: u8 = 0x36;

// The byte that masks the key before the inner digest is hashed (RFC 2104, opad).
const OUTER_MASK: u8 = 0x5c;

/// HMAC-SHA-256 under a key that is one block of 64 bytes, eight texts at a time. A contract sees the value as that
/// block. Both masked blocks are taken in already.
#[derive(Drop)]
pub struct KeyedLanes {
    block: [u8; 64],
    inner: Start,
    outer: Start,
}

impl Model for KeyedLanes {
    ghost use Rattle.std.specs.Prelude.{ℕ, List};
    ghost use Rattle.lane_sha.specs.Hmac.{inner_key, outer_key};
    ghost use Rattle.lane_sha.specs.Texts.{StandsBehind};

    ghost Value = { List ℕ };

    ghost view = { λ k. k.block };

    ghost invariant = { λ k. StandsBehind k.inner (inner_key k.block) × StandsBehind k.outer (outer_key k.block) };
}

impl KeyedLanes {
    /// HMAC under this key. A key of fewer bytes is filled with zeros, and one of more is hashed before (RFC 2104, "K").
    pub fn new(block: &[u8; 64]) -> KeyedLanes
        ensures value { result ≡ block.now }
    {
        let start = Start::new();
        KeyedLanes {
            block: *block,
            inner: start.after(&masked(block, INNER_MASK)),
            outer: start.after(&masked(block, OUTER_MASK)),
        }
    }

    /// The HMAC of each of eight texts, which with their padding have one number of blocks.
    pub fn hmacs(&self, texts: &[&[u8]; 8]) -> [[u8; 32]; 8]
        requires one_count { HaveOneCount texts.now }
        ensures value { (j : ℕ) → j < lane_count → block j result ≡ hmac_of_block self.now (text j texts.now) }
    {
        let inner = digests(&self.inner, texts);
        digests(
            &self.outer,
            &[
                &inner[0][..],
                &inner[1][..],
                &inner[2][..],
                &inner[3][..],
                &inner[4][..],
                &inner[5][..],
                &inner[6][..],
                &inner[7][..],
            ],
        )
    }
}

impl fmt::Debug for KeyedLanes {
    // The key stays secret.
    fn fmt<W: fmt::Write>(&self, f: &mut fmt::Formatter<W>) -> fmt::Result {
        f.write_str("KeyedLanes { ... }")
    }
}

// The block with each byte masked.
fn masked(block: &[u8; 64], mask: u8) -> [u8; 64]
    ensures value { result ≡ map (λ byte. bit_xor byte mask) block.now }
{
    (u8x64::from_array(*block) ^ u8x64::splat(mask)).to_array()
}
