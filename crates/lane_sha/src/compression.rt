//! The compression of eight blocks at a time.
ghost use Rattle.std.specs.Prelude.{◌≡◌, ℕ, ◌+◌, ◌*◌, ◌<◌, ◌≤◌, List, length, slice_index};
ghost use Rattle.sha2.specs.Sha256.{add32, add_state, compress, round, rounds, schedule, small_sigma0, small_sigma1, word_at};
ghost use Rattle.lane_sha.specs.Lanes.{lane_count, lane, block};
ghost use Rattle.lane_sha.specs.Turns.{HasWords};

use crate::words::{add, big_sigma0, big_sigma1, ch, maj, small_sigma0, small_sigma1};
use std::simd::u32x8;

// The constants of the rounds (FIPS 180-4, 4.2.2).
const ROUND_CONSTANTS: [u32; 64] = [
    0x428A2F98, 0x71374491, 0xB5C0FBCF, 0xE9B5DBA5, 0x3956C25B, 0x59F111F1, 0x923F82A4, 0xAB1C5ED5,
    0xD807AA98, 0x12835B01, 0x243185BE, 0x550C7DC3, 0x72BE5D74, 0x80DEB1FE, 0x9BDC06A7, 0xC19BF174,
    0xE49B69C1, 0xEFBE4786, 0x0FC19DC6, 0x240CA1CC, 0x2DE92C6F, 0x4A7484AA, 0x5CB0A9DC, 0x76F988DA,
    0x983E5152, 0xA831C66D, 0xB00327C8, 0xBF597FC7, 0xC6E00BF3, 0xD5A79147, 0x06CA6351, 0x14292967,
    0x27B70A85, 0x2E1B2138, 0x4D2C6DFC, 0x53380D13, 0x650A7354, 0x766A0ABB, 0x81C2C92E, 0x92722C85,
    0xA2BFE8A1, 0xA81A664B, 0xC24B8B70, 0xC76C51A3, 0xD192E819, 0xD6990624, 0xF40E3585, 0x106AA070,
    0x19A4C116, 0x1E376C08, 0x2748774C, 0x34B0BCB5, 0x391C0CB3, 0x4ED8AA4A, 0x5B9CCA4F, 0x682E6FF3,
    0x748F82EE, 0x78A5636F, 0x84C87814, 0x8CC70208, 0x90BEFFFA, 0xA4506CEB, 0xBEF9A3F7, 0xC67178F2,
];

/// Takes a block into each of eight hash values (FIPS 180-4, 6.2.2): lane j of the eight vectors is a hash value,
/// and takes block j.
pub fn compress(state: &mut [u32x8; 8], blocks: &[[u8; 64]; 8])
    ensures value { (j : ℕ) → j < lane_count → lane j state.new ≡ compress (lane j state.old) (block j blocks.now) }
{
    let before = *state;
    let first = first_words(blocks);
    let second = next_words(first);
    let third = next_words(second);
    let fourth = next_words(third);
    let v = sixteen_rounds(before, first, 0);
    let v = sixteen_rounds(v, second, 1);
    let v = sixteen_rounds(v, third, 2);
    let v = sixteen_rounds(v, fourth, 3);
    *state = added(before, v);
}

// The hash values, each with what the rounds came to added to it.
#[inline(always)]
fn added(state: [u32x8; 8], v: [u32x8; 8]) -> [u32x8; 8]
    ensures value { (j : ℕ) → j < lane_count → lane j result ≡ add_state (lane j state) (lane j v) }
{
    [
        add(state[0], v[0]),
        add(state[1], v[1]),
        add(state[2], v[2]),
        add(state[3], v[3]),
        add(state[4], v[4]),
        add(state[5], v[5]),
        add(state[6], v[6]),
        add(state[7], v[7]),
    ]
}

// The sixteen words of each block.
#[inline(always)]
fn first_words(blocks: &[[u8; 64]; 8]) -> [u32x8; 16]
    ensures words { (j : ℕ) → j < lane_count → HasWords j result (block j blocks.now) 0 }
{
    [
        word_of_each(blocks, 0),
        word_of_each(blocks, 4),
        word_of_each(blocks, 8),
        word_of_each(blocks, 12),
        word_of_each(blocks, 16),
        word_of_each(blocks, 20),
        word_of_each(blocks, 24),
        word_of_each(blocks, 28),
        word_of_each(blocks, 32),
        word_of_each(blocks, 36),
        word_of_each(blocks, 40),
        word_of_each(blocks, 44),
        word_of_each(blocks, 48),
        word_of_each(blocks, 52),
        word_of_each(blocks, 56),
        word_of_each(blocks, 60),
    ]
}

// The word at byte i of each block.
#[inline(always)]
fn word_of_each(blocks: &[[u8; 64]; 8], i: usize) -> u32x8
    requires inside { i + 4 ≤ 64 }
    ensures words { (j : ℕ) → j < lane_count → slice_index result j ≡ word_at (block j blocks.now) i }
{
    u32x8::from_array([
        word_at(&blocks[0], i),
        word_at(&blocks[1], i),
        word_at(&blocks[2], i),
        word_at(&blocks[3], i),
        word_at(&blocks[4], i),
        word_at(&blocks[5], i),
        word_at(&blocks[6], i),
        word_at(&blocks[7], i),
    ])
}

// The word at byte i of a block, high byte first.
#[inline(always)]
fn word_at(block: &[u8; 64], i: usize) -> u32
    requires inside { i + 4 ≤ 64 }
    ensures value { result ≡ word_at block.now i }
{
    u32::from_be_bytes([block[i], block[i + 1], block[i + 2], block[i + 3]])
}

// A word of the schedule from those 16, 15, 7 and 2 before it.
#[inline(always)]
fn next_word(before_16: u32x8, before_15: u32x8, before_7: u32x8, before_2: u32x8) -> u32x8
    ensures value { (j : ℕ) → j < lane_count → slice_index result j
        ≡ add32 (add32 (add32 (small_sigma1 (slice_index before_2 j)) (slice_index before_7 j)) (small_sigma0 (slice_index before_15 j)))
        (slice_index before_16 j) }
{
    add(
        add(
            add(small_sigma1(before_2), before_7),
            small_sigma0(before_15),
        ),
        before_16,
    )
}

// The next sixteen words of each block.
#[inline(always)]
fn next_words(w: [u32x8; 16]) -> [u32x8; 16]
    ensures words { (j : ℕ) (b : List ℕ) (turn : ℕ) → j < lane_count → turn < 3 → HasWords j w b turn
        → HasWords j result b (turn + 1) }
{
    let w0 = next_word(w[0], w[1], w[9], w[14]);
    let w1 = next_word(w[1], w[2], w[10], w[15]);
    let w2 = next_word(w[2], w[3], w[11], w0);
    let w3 = next_word(w[3], w[4], w[12], w1);
    let w4 = next_word(w[4], w[5], w[13], w2);
    let w5 = next_word(w[5], w[6], w[14], w3);
    let w6 = next_word(w[6], w[7], w[15], w4);
    let w7 = next_word(w[7], w[8], w0, w5);
    let w8 = next_word(w[8], w[9], w1, w6);
    let w9 = next_word(w[9], w[10], w2, w7);
    let w10 = next_word(w[10], w[11], w3, w8);
    let w11 = next_word(w[11], w[12], w4, w9);
    let w12 = next_word(w[12], w[13], w5, w10);
    let w13 = next_word(w[13], w[14], w6, w11);
    let w14 = next_word(w[14], w[15], w7, w12);
    let w15 = next_word(w[15], w0, w8, w13);
    [
        w0, w1, w2, w3, w4, w5, w6, w7, w8, w9, w10, w11, w12, w13, w14, w15,
    ]
}

// One round on the working variables (FIPS 180-4, 6.2.2, step 3).
#[inline(always)]
fn round(v: [u32x8; 8], k: u32, word: u32x8) -> [u32x8; 8]
    ensures value { (j : ℕ) → j < lane_count → lane j result ≡ round (lane j v) k (slice_index word j) }
{
    let [a, b, c, d, e, f, g, h] = v;
    let temp1 = add(
        add(add(add(h, big_sigma1(e)), ch(e, f, g)), u32x8::splat(k)),
        word,
    );
    let temp2 = add(big_sigma0(a), maj(a, b, c));
    [add(temp1, temp2), a, b, c, add(d, temp1), e, f, g]
}

// Four rounds, from that of the word at a place on.
#[inline(always)]
fn four_rounds(v: [u32x8; 8], w: [u32x8; 16], turn: usize, place: usize) -> [u32x8; 8]
    requires turn { turn < 4 }
    requires place { place + 4 ≤ 16 }
    ensures rounds { (j : ℕ) (b h : List ℕ) → j < lane_count → HasWords j w b turn
        → lane j v ≡ rounds h (schedule b 48) (16 * turn + place)
        → lane j result ≡ rounds h (schedule b 48) (16 * turn + (place + 4)) }
{
    let v = round(v, ROUND_CONSTANTS[16 * turn + place], w[place]);
    let v = round(v, ROUND_CONSTANTS[16 * turn + (place + 1)], w[place + 1]);
    let v = round(v, ROUND_CONSTANTS[16 * turn + (place + 2)], w[place + 2]);
    round(v, ROUND_CONSTANTS[16 * turn + (place + 3)], w[place + 3])
}

// Sixteen rounds, of the words of one turn.
#[inline(always)]
fn sixteen_rounds(v: [u32x8; 8], w: [u32x8; 16], turn: usize) -> [u32x8; 8]
    requires turn { turn < 4 }
    ensures rounds { (j : ℕ) (b h : List ℕ) → j < lane_count → HasWords j w b turn
        → lane j v ≡ rounds h (schedule b 48) (16 * turn)
        → lane j result ≡ rounds h (schedule b 48) (16 * (turn + 1)) }
{
    let v = four_rounds(v, w, turn, 0);
    let v = four_rounds(v, w, turn, 4);
    let v = four_rounds(v, w, turn, 8);
    four_rounds(v, w, turn, 12)
}
