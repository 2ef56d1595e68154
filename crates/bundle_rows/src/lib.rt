//! Bundles for tests, written as text: one command a row.
//!
//! `bundle_of` reads rows into the bytes of a bundle, `log_of` into those of one log, and `cases_of` reads a table of
//! cases, each with a label, rows, and the status and report that they must have. The crate writes with
//! `write_path_command` and `write_slot_command` of `log_codec` and with `write_header` and `write_frame` of `bundle_frames`. It is used by tests alone.
//!
//! Rows are these, and empty ones are passed over:
//!
//! | Row | Meaning |
//! |---|---|
//! | `version 1 verifiers 2 cache 8 first 7 end 9 bits 64` | the header's numbers, in any order; 1, 1, 4, 0, 16777215 and 64 where they are left out |
//! | `log 1` | the rows behind it are of verifier 1's log, in a frame of their own; at the start it is verifier 0's |
//! | `frames 3` | the logs behind it are cut in frames of 3 bytes; at the start of 65,536 |
//! | `addM 5 6162 root`, `evictM 5 root` | an add and an evict by the tree: path, value, parent |
//! | `addB 5 6162 0.1 v2`, `evictB 5 0.1` | an add and an evict by a stamp: path, value, epoch and counter, verifier |
//! | `evictBM 5 root 0.1` | a deferred evict: path, parent, stamp |
//! | `get 5 6162`, `put 5 none`, `next` | a get, a put, the step to the next epoch |
//! | `absent 5 root` | a key without a record, and its parent |
//! | `addM s1 5 6162 s0`, `evictM s1 s0`, .. | the same by slots, which a log of version 2 or 3 names: that of a path is before it, that of a parent in the place of its path |
//! | `get s1 6162`, `put s1 none` | the same of a slot in the place of a path |
//! | `bytes 09` | these bytes in the log |
//! | `raw 00ff` | these bytes of the bundle, behind the frames so far |
//!
//! A path is `root`, a key as a decimal number, bits as in `/01`, or a key's first bits: `5/60` is 60 of them. Behind a
//! `w`, as in `w5`, it is one of the tree whose keys have 128 bits. A value is `initial` (what its path starts with),
//! `none`, `.` (no bytes), hexadecimal digits, `empty` (a node with nothing below it), or a node's two sides with a
//! comma between: `-` where nothing is below, `5:c6` a pointer to 5 with a digest that ends with the byte c6 and has
//! zeros before it, `5?c6` the same, deferred.
//!
//! Begin with `bundles.rt`; `commands.rt` and `slot_commands.rt` read a command's row, `fields.rt` its fields.
#![tactic(auto)]

mod bundles;
mod cases;
mod commands;
mod fault;
mod fields;
mod slot_commands;

pub use bundles::{bundle_of, log_of};
pub use cases::{Case, cases_of};
pub use commands::command_of;
pub use fault::RowFault;
pub use slot_commands::slot_command_of;
