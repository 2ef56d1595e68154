//! The nodes of a sparse Merkle tree: how a node changes when a path below it comes into a cache or leaves it.
//!
//! A node's pointer of a side leads to the highest touched path on that side, with the digest of that
//! path's value (Merkle 1987), or with a flag that the record there is checked later (Blum et al. 1994).
//! The crate stands on `tree_keys`, `record_text` and `record_hash`. Begin with `specs/Merkle.antt`, then
//! `nodes.rt`; `laws.rt` says that values stay of their paths' kinds, and how long digests are.
#![tactic(auto)]

mod cases;
mod laws;
mod nodes;

pub use cases::AddCase;
pub use laws::{digests_have_32_bytes, one_pointer_changes, records_stay_of_their_kinds};
pub use nodes::{add_case, after_add, defer, digest_of, leads_over, pointer_to, side_of};
