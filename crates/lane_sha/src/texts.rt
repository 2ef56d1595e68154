//! The digests of eight texts at a time.
ghost use Rattle.std.specs.Prelude.{◌≡◌, ◌↔◌, ℕ, ◌<◌, List, [], ◌++◌, IsTrue};
ghost use Rattle.sha2.specs.Sha256.{digest_bytes, hash_after, sha256};
ghost use Rattle.lane_sha.specs.Lanes.{lane_count, lane, block};
ghost use Rattle.lane_sha.specs.Padding.{block_count, padded_behind};
ghost use Rattle.lane_sha.specs.Texts.{HaveOneCount, StandsBehind, text};

use crate::compression::compress;
use crate::padding::{block_count, padded_block};
use crate::start::Start;
use std::simd::u32x8;

// What each message begins with (FIPS 180-4, 5.3.3).
const INITIAL_HASH: [u32; 8] = [
    0x6A09E667, 0xBB67AE85, 0x3C6EF372, 0xA54FF53A, 0x510E527F, 0x9B05688C, 0x1F83D9AB, 0x5BE0CD19,
];

impl Start {
    /// The start of a message.
    pub fn new() -> Start
        ensures behind { StandsBehind result [] }
    {
        Start {
            hash: INITIAL_HASH,
            taken: 0,
        }
    }

    /// The start behind a block more.
    pub fn after(&self, block: &[u8; 64]) -> Start
        ensures behind { (front : List ℕ) → StandsBehind self.now front → StandsBehind result (front ++ block.now) }
    {
        let mut state = spread(&self.hash);
        compress(&mut state, &[*block; 8]);
        Start {
            hash: words_of_lane(&rows_of(state), 0),
            taken: self.taken.wrapping_add(64),
        }
    }
}

/// Whether the texts with their padding have one number of blocks.
pub fn have_one_count(texts: &[&[u8]; 8]) -> bool
    ensures value { IsTrue result ↔ HaveOneCount texts.now }
{
    let count = block_count(texts[0]);
    block_count(texts[1]) == count
        && block_count(texts[2]) == count
        && block_count(texts[3]) == count
        && block_count(texts[4]) == count
        && block_count(texts[5]) == count
        && block_count(texts[6]) == count
        && block_count(texts[7]) == count
}

/// SHA-256 (FIPS 180-4) of eight messages: each is what the start stands behind, and then a text. The texts with their
/// padding have one number of blocks, as those of 0 to 55 bytes, of 56 to 119, of 120 to 183 and so on.
pub fn digests(start: &Start, texts: &[&[u8]; 8]) -> [[u8; 32]; 8]
    requires one_count { HaveOneCount texts.now }
    ensures value { (j : ℕ) (front : List ℕ) → j < lane_count → StandsBehind start.now front
        → block j result ≡ sha256 (front ++ text j texts.now) }
{
    let rows = rows_of(hash_values(start, texts));
    [
        digest_of(&words_of_lane(&rows, 0)),
        digest_of(&words_of_lane(&rows, 1)),
        digest_of(&words_of_lane(&rows, 2)),
        digest_of(&words_of_lane(&rows, 3)),
        digest_of(&words_of_lane(&rows, 4)),
        digest_of(&words_of_lane(&rows, 5)),
        digest_of(&words_of_lane(&rows, 6)),
        digest_of(&words_of_lane(&rows, 7)),
    ]
}

// The hash value behind each text and its padding.
fn hash_values(start: &Start, texts: &[&[u8]; 8]) -> [u32x8; 8]
    requires one_count { HaveOneCount texts.now }
    ensures value { (j : ℕ) → j < lane_count → lane j result
        ≡ hash_after start.now.hash (padded_behind start.now.taken (text j texts.now)) (block_count (text j texts.now)) }
{
    let mut state = spread(&start.hash);
    let count = block_count(texts[0]);
    'blocks: for number in 0..count {
        let blocks = [
            padded_block(texts[0], start.taken, number),
            padded_block(texts[1], start.taken, number),
            padded_block(texts[2], start.taken, number),
            padded_block(texts[3], start.taken, number),
            padded_block(texts[4], start.taken, number),
            padded_block(texts[5], start.taken, number),
            padded_block(texts[6], start.taken, number),
            padded_block(texts[7], start.taken, number),
        ];
        compress(&mut state, &blocks);
    }
    state
}

// One hash value in all lanes.
fn spread(hash: &[u32; 8]) -> [u32x8; 8]
    ensures value { (j : ℕ) → j < lane_count → lane j result ≡ hash.now }
{
    [
        u32x8::splat(hash[0]),
        u32x8::splat(hash[1]),
        u32x8::splat(hash[2]),
        u32x8::splat(hash[3]),
        u32x8::splat(hash[4]),
        u32x8::splat(hash[5]),
        u32x8::splat(hash[6]),
        u32x8::splat(hash[7]),
    ]
}

// The vectors as arrays.
#[inline(always)]
fn rows_of(state: [u32x8; 8]) -> [[u32; 8]; 8]
    ensures value { result ≡ state }
{
    [
        state[0].to_array(),
        state[1].to_array(),
        state[2].to_array(),
        state[3].to_array(),
        state[4].to_array(),
        state[5].to_array(),
        state[6].to_array(),
        state[7].to_array(),
    ]
}

// The hash value in a lane.
#[inline(always)]
fn words_of_lane(rows: &[[u32; 8]; 8], j: usize) -> [u32; 8]
    requires inside { j < lane_count }
    ensures value { result ≡ lane j rows.now }
{
    [
        rows[0][j], rows[1][j], rows[2][j], rows[3][j], rows[4][j], rows[5][j], rows[6][j],
        rows[7][j],
    ]
}

// The digest of a hash value: each word with its high byte first.
#[inline(always)]
fn digest_of(hash: &[u32; 8]) -> [u8; 32]
    ensures value { result ≡ digest_bytes hash.now 8 }
{
    let mut digest = [0u8; 32];
    'words: for i in 0..8 {
        digest[4 * i..4 * i + 4].copy_from_slice(&hash[i].to_be_bytes());
    }
    digest
}
