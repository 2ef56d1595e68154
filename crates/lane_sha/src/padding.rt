//! The blocks of a text and its padding.
ghost use Rattle.std.specs.Prelude.{◌≡◌, ◌+◌, ◌-◌, ◌*◌, ◌%◌, ◌<◌, ◌≤◌, ◌++◌, ◌∷◌, length, take, drop, replicate};
ghost use Rattle.std.specs.Int.{w64, to_be_bytes};
ghost use Rattle.lane_sha.specs.Padding.{block_count, padded_block};

// Behind so many bytes of a block there is no room for the count.
const COUNT_AT: usize = 56;

/// How many blocks a text and its padding are, behind whole blocks.
#[inline(always)]
pub fn block_count(text: &[u8]) -> usize
    ensures value { result ≡ block_count text.now }
{
    (text.len() + 72) / 64
}

// A block of the text and its padding, behind so many bytes of the message.
#[inline(always)]
pub(crate) fn padded_block(text: &[u8], taken: u64, number: usize) -> [u8; 64]
    requires whole { taken % 64 ≡ 0 }
    requires inside { number < block_count text.now }
    ensures value { result ≡ padded_block taken text.now number }
{
    let bits = taken.wrapping_add(text.len() as u64).wrapping_mul(8);
    let from = number * 64;
    if from > text.len() {
        return counted([0; 64], bits);
    }
    let rest = &text[from..];
    if rest.len() >= 64 {
        return first_block(rest);
    }
    if rest.len() >= COUNT_AT {
        return ended(rest);
    }
    counted(ended(rest), bits)
}

// The first 64 bytes.
#[inline(always)]
fn first_block(bytes: &[u8]) -> [u8; 64]
    requires long { 64 ≤ length bytes.now }
    ensures value { result ≡ take 64 bytes.now }
{
    let mut block = [0u8; 64];
    block.copy_from_slice(&bytes[..64]);
    block
}

// The last bytes of a text, the byte that ends it, and zeros.
#[inline(always)]
fn ended(rest: &[u8]) -> [u8; 64]
    requires fits { length rest.now < 64 }
    ensures value { result ≡ rest.now ++ 0x80 ∷ replicate (63 - length rest.now) 0 }
{
    let mut block = [0u8; 64];
    put_front(&mut block, rest);
    block[rest.len()] = 0x80;
    block
}

// Puts bytes in the place of as many at the front.
#[inline(always)]
fn put_front(block: &mut [u8], bytes: &[u8])
    requires fits { length bytes.now ≤ length block.old }
    ensures value { block.new ≡ bytes.now ++ drop (length bytes.now) block.old }
{
    block[..bytes.len()].copy_from_slice(bytes);
}

// The block with the message's number of bits in its last bytes.
#[inline(always)]
fn counted(mut block: [u8; 64], bits: u64) -> [u8; 64]
    ensures value { result ≡ take 56 block ++ to_be_bytes w64 bits }
{
    block[COUNT_AT..].copy_from_slice(&bits.to_be_bytes());
    block
}
