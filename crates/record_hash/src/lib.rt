//! The digests that the verifiers keep in place of whole texts and lists.
//!
//! `Digests` has four functions of bytes: the digest of a text, the lanes of an element for a multiset
//! hash, the tag of a text that a verifier signs, and that of a request that a client signs. `ShaDigests` computes them with SHA-256 and HMAC
//! under a key, `ToyDigests` with a sum, for tests. The crate stands on `lane_sha`, which hashes eight texts at a time, and on
//! the kit's `sha2` and `arrayvec`. Begin with the
//! trait in `digest_functions.rt` and with `specs/Hmac.antt`.
#![tactic(auto)]

mod digest_functions;
mod hmac_sha256;
mod known_digests;
mod sha_digests;
mod toy_digests;

pub use digest_functions::Digests;
pub use hmac_sha256::hmac;
pub use known_digests::KnownDigests;
pub use sha_digests::ShaDigests;
pub use toy_digests::ToyDigests;
