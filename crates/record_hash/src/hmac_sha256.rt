//! HMAC-SHA-256 (RFC 2104, over FIPS 180-4).
ghost use Rattle.std.specs.Prelude.{◌≡◌, ◌≤◌, ℕ, List, ◌++◌, length, map, bit_xor};
ghost use Rattle.sha2.specs.Hashers.{Holds256};
ghost use Rattle.lane_sha.specs.Hmac.{zero_filled, key_block, inner_key, outer_key, hmac_of_block, hmac_sha256};

use sha2::{Digest, Sha256};

// How many bytes SHA-256 takes in at a time.
pub(crate) const BLOCK_LEN: usize = 64;

// The byte that masks the key before the text is hashed (RFC 2104, ipad).
const INNER_MASK: u8 = 0x36;

// The byte that masks the key before the inner hash is hashed (RFC 2104, opad).
const OUTER_MASK: u8 = 0x5c;

/// HMAC-SHA-256 (RFC 2104) of bytes of any length under a key of any length.
pub fn hmac(key: &[u8], bytes: &[u8]) -> [u8; 32]
    ensures value { result ≡ hmac_sha256 key.now bytes.now }
{
    let block = key_block(key);
    let mut inner = inner_state(&block);
    inner.update(bytes);
    finished(inner, outer_state(&block))
}

// The key as one block.
pub(crate) fn key_block(key: &[u8]) -> [u8; BLOCK_LEN]
    ensures value { result ≡ key_block key.now }
{
    if key.len() > BLOCK_LEN {
        zero_filled(&Sha256::digest(key))
    } else {
        zero_filled(key)
    }
}

// A state of SHA-256 that has taken in the key block under the inner mask.
pub(crate) fn inner_state(block: &[u8; BLOCK_LEN]) -> Sha256
    ensures holds { Holds256 result (inner_key block.now) }
{
    Sha256::new_with_prefix(masked(block, INNER_MASK))
}

// A state of SHA-256 that has taken in the key block under the outer mask.
pub(crate) fn outer_state(block: &[u8; BLOCK_LEN]) -> Sha256
    ensures holds { Holds256 result (outer_key block.now) }
{
    Sha256::new_with_prefix(masked(block, OUTER_MASK))
}

// The HMAC, from an inner state that has taken in the text too and an outer state that has not.
pub(crate) fn finished(inner: Sha256, mut outer: Sha256) -> [u8; 32]
    ensures value { (block text : List ℕ) → Holds256 inner (inner_key block ++ text)
        → Holds256 outer (outer_key block) → result ≡ hmac_of_block block text }
{
    outer.update(inner.finalize());
    outer.finalize()
}

// The block with each byte masked.
fn masked(block: &[u8; BLOCK_LEN], mask: u8) -> [u8; BLOCK_LEN]
    ensures value { result ≡ map (λ byte. bit_xor byte mask) block.now }
{
    let mut masked = *block;
    for byte in masked.iter_mut() {
        *byte ^= mask;
    }
    masked
}

// The bytes with zeros behind them, up to a whole block.
fn zero_filled(bytes: &[u8]) -> [u8; BLOCK_LEN]
    requires fits { length bytes.now ≤ BLOCK_LEN }
    ensures value { result ≡ zero_filled bytes.now }
{
    let mut block = [0; BLOCK_LEN];
    for i in 0..bytes.len() {
        block[i] = bytes[i];
    }
    block
}
