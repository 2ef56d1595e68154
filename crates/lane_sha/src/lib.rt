//! SHA-256 and HMAC of eight texts side by side, which takes a third of the time or less.
//!
//! Each word is a vector of `std::simd` with eight lanes, one for each text, so that one step serves eight
//! compressions. `compress` takes a block into each of eight hash values, `digests` hashes eight texts behind a `Start`
//! (the hash value of what all begin with), and `KeyedLanes` makes their HMAC under a key. The texts have one number of
//! blocks, which `block_count` tells and `have_one_count` asks. Each clause says of lane j, alone, what the kit's `sha2`
//! defines (FIPS 180-4), on which the crate stands and which it doesn't call, and of an HMAC what `specs/Hmac.antt` does.
//! Begin with `compression.rt`, `texts.rt` and `specs/Lanes.antt`; `words.rt` has the functions on words, and
//! `padding.rt` the blocks of a text.
#![tactic(auto)]

mod compression;
mod keyed;
mod padding;
mod start;
mod texts;
mod words;

pub use compression::compress;
pub use keyed::KeyedLanes;
pub use padding::block_count;
pub use start::Start;
pub use texts::{digests, have_one_count};
