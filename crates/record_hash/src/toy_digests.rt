//! Digests that collide at will, for tests.
ghost use Rattle.std.specs.Prelude.{◌≡◌, ◌<◌, ℕ};
ghost use Rattle.lane_sha.specs.Lanes.{lane_count, block};
ghost use Rattle.lane_sha.specs.Texts.{text};
ghost use Rattle.record_hash.specs.ToyDigests.{toy_sum, toy_digest, toy_lanes, toy_functions};

use crate::digest_functions::Digests;

/// For tests: it adds bytes up, so its digests collide at will, as those of `ab` and `ba` do.
#[derive(Clone, Copy, Debug)]
pub struct ToyDigests;

impl Digests for ToyDigests {
    ghost functions = { λ _. toy_functions };

    fn text_digest(&self, bytes: &[u8]) -> [u8; 32] {
        digest_of(bytes)
    }

    fn element_lanes(&self, bytes: &[u8]) -> [u32; 8] {
        lanes_of(bytes)
    }

    fn text_digests(&self, texts: &[&[u8]; 8]) -> [[u8; 32]; 8] {
        digest_of_each(texts)
    }

    fn lanes_of_eight(&self, texts: &[&[u8]; 8]) -> [[u32; 8]; 8] {
        lanes_of_each(texts)
    }

    fn tag(&self, bytes: &[u8]) -> [u8; 32] {
        digest_of(bytes)
    }

    fn client_tag(&self, _client: u32, bytes: &[u8]) -> [u8; 32] {
        digest_of(bytes)
    }

    ghost use Rattle.record_hash.specs.Shapes.{IsDigest-toy_digest, AreLanes-toy_lanes};

    ghost text_digest_shape = { λ _ bytes. IsDigest-toy_digest bytes };

    ghost element_lanes_shape = { λ _ bytes. AreLanes-toy_lanes bytes };

    ghost tag_shape = { λ _ bytes. IsDigest-toy_digest bytes };

    ghost client_tag_shape = { λ _ _ bytes. IsDigest-toy_digest bytes };
}

// The digest of each text.
fn digest_of_each(texts: &[&[u8]; 8]) -> [[u8; 32]; 8]
    ensures value { (j : ℕ) → j < lane_count → block j result ≡ toy_digest (text j texts.now) }
{
    [
        digest_of(texts[0]),
        digest_of(texts[1]),
        digest_of(texts[2]),
        digest_of(texts[3]),
        digest_of(texts[4]),
        digest_of(texts[5]),
        digest_of(texts[6]),
        digest_of(texts[7]),
    ]
}

// The lanes of each element's text.
fn lanes_of_each(texts: &[&[u8]; 8]) -> [[u32; 8]; 8]
    ensures value { (j : ℕ) → j < lane_count → block j result ≡ toy_lanes (text j texts.now) }
{
    [
        lanes_of(texts[0]),
        lanes_of(texts[1]),
        lanes_of(texts[2]),
        lanes_of(texts[3]),
        lanes_of(texts[4]),
        lanes_of(texts[5]),
        lanes_of(texts[6]),
        lanes_of(texts[7]),
    ]
}

// The sum in lane 0.
fn lanes_of(bytes: &[u8]) -> [u32; 8]
    ensures value { result ≡ toy_lanes bytes.now }
{
    [sum_of(bytes), 0, 0, 0, 0, 0, 0, 0]
}

// The sum as a number in 32 bytes, high byte first.
fn digest_of(bytes: &[u8]) -> [u8; 32]
    ensures value { result ≡ toy_digest bytes.now }
{
    let [b3, b2, b1, b0] = sum_of(bytes).to_be_bytes();
    let mut digest = [0; 32];
    digest[28] = b3;
    digest[29] = b2;
    digest[30] = b1;
    digest[31] = b0;
    digest
}

// The sum of the bytes modulo 2 ^ 32.
fn sum_of(bytes: &[u8]) -> u32
    ensures value { result ≡ toy_sum bytes.now }
{
    let mut sum = 0u32;
    for byte in bytes {
        sum = sum.wrapping_add(u32::from(*byte));
    }
    sum
}
