//! The functions of SHA-256 on words (FIPS 180-4, 4.1.2), on eight words at a time.
ghost use Rattle.std.specs.Prelude.{◌≡◌, ℕ, ◌<◌, slice_index};
ghost use Rattle.std.specs.Int.{w32, rotate_right};
ghost use Rattle.sha2.specs.Sha256.{add32, ch, maj, big_sigma0, big_sigma1, small_sigma0, small_sigma1};
ghost use Rattle.lane_sha.specs.Lanes.{lane_count};

use std::simd::u32x8;

#[inline(always)]
pub(crate) fn add(x: u32x8, y: u32x8) -> u32x8
    ensures value { (j : ℕ) → j < lane_count → slice_index result j ≡ add32 (slice_index x j) (slice_index y j) }
{
    x + y
}

#[inline(always)]
fn rotate_right(x: u32x8, k: u32) -> u32x8
    requires low { 0 < k }
    requires high { k < 32 }
    ensures value { (j : ℕ) → j < lane_count → slice_index result j ≡ rotate_right w32 (slice_index x j) k }
{
    (x >> u32x8::splat(k)) | (x << u32x8::splat(32 - k))
}

#[inline(always)]
pub(crate) fn ch(x: u32x8, y: u32x8, z: u32x8) -> u32x8
    ensures value { (j : ℕ) → j < lane_count
        → slice_index result j ≡ ch (slice_index x j) (slice_index y j) (slice_index z j) }
{
    (x & y) ^ (!x & z)
}

#[inline(always)]
pub(crate) fn maj(x: u32x8, y: u32x8, z: u32x8) -> u32x8
    ensures value { (j : ℕ) → j < lane_count
        → slice_index result j ≡ maj (slice_index x j) (slice_index y j) (slice_index z j) }
{
    (x & y) ^ (x & z) ^ (y & z)
}

#[inline(always)]
pub(crate) fn big_sigma0(x: u32x8) -> u32x8
    ensures value { (j : ℕ) → j < lane_count → slice_index result j ≡ big_sigma0 (slice_index x j) }
{
    rotate_right(x, 2) ^ rotate_right(x, 13) ^ rotate_right(x, 22)
}

#[inline(always)]
pub(crate) fn big_sigma1(x: u32x8) -> u32x8
    ensures value { (j : ℕ) → j < lane_count → slice_index result j ≡ big_sigma1 (slice_index x j) }
{
    rotate_right(x, 6) ^ rotate_right(x, 11) ^ rotate_right(x, 25)
}

#[inline(always)]
pub(crate) fn small_sigma0(x: u32x8) -> u32x8
    ensures value { (j : ℕ) → j < lane_count → slice_index result j ≡ small_sigma0 (slice_index x j) }
{
    rotate_right(x, 7) ^ rotate_right(x, 18) ^ (x >> u32x8::splat(3))
}

#[inline(always)]
pub(crate) fn small_sigma1(x: u32x8) -> u32x8
    ensures value { (j : ℕ) → j < lane_count → slice_index result j ≡ small_sigma1 (slice_index x j) }
{
    rotate_right(x, 17) ^ rotate_right(x, 19) ^ (x >> u32x8::splat(10))
}
