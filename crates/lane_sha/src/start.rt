//! What a message begins with, taken in already.
ghost use Rattle.std.specs.Prelude.{◌≡◌, ◌%◌};

/// The hash value behind the whole blocks that a message begins with, and how many bytes these are, modulo 2^64. What
/// stands behind a start is hashed as though it stood behind those bytes.
#[derive(Clone, Copy)]
pub struct Start {
    pub hash: [u32; 8],
    pub taken: u64,
    ghost whole: { taken % 64 ≡ 0 },
}
