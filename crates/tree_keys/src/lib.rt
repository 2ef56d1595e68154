//! The keys of two sparse Merkle trees: paths that bits lead to from their roots, and how they lie to each other.
//!
//! The keys of one tree have 64 bits, those of the other 128. A path that all bits of a key lead to is a data path, the place of
//! that key's record; a shorter one names a node of the tree, and no bits lead to the root. A contract sees a `Path` as a list of
//! bits: the first says of which tree it is, and those behind it lead to the path, most significant first. The crate stands on no
//! other: begin with `Path` in `path.rt`, and with `side` in `specs/Path.antt`, which says when one path lies below another.
#![tactic(auto)]

mod path;

pub use path::{Path, key_bits};
