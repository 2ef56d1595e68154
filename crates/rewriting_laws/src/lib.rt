//! Why a log whose commands name paths has the same history where they name slots: what a verifier accepts by path, it accepts
//! rewritten, and each command does the same. And why the slots come to rest where the entries do.
//!
//! The crate has no code: its public functions are laws. It stands on `slot_rewriting`, which has the rewriting, and on
//! `soundness`, which has the histories. Begin with `specs/Alike.antt` and `rewriting_keeps_histories` in `laws.rt`.
#![tactic(auto)]

mod laws;

pub use laws::{a_log_that_leaves_as_many_entries_comes_to_rest, rewriting_keeps_histories};
