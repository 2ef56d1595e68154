//! How commands that name paths are rewritten to commands that name slots: each add takes the lowest empty slot, and what was
//! in a slot that is left is gone from it.
//!
//! A contract sees a `Slots` as a list that says which path stands in each slot. All memory is taken when it is made. A path's
//! slot is found by an index of paths, and the lowest empty one is known at once. The crate stands on `log_codec` for
//! commands of both kinds, on `path_index` and on `free_numbers`. Begin with `specs/Rewriting.antt`, then `Slots` in
//! `slots.rt`. `CommandWriter` in `writer.rt` writes the commands of a host's log, of any version; `specs/Writing.antt` says which
//! bytes that is.
#![tactic(auto)]

mod slots;
mod writer;

pub use slots::Slots;
pub use writer::CommandWriter;
