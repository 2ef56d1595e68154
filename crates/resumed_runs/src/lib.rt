//! Runs that go on from what was kept of them, and what of a run is enough to certify from it.
//!
//! `specs/Base.antt` says what of a run is enough to go on certifying, whatever logs it took, if any: runs of logs have it, it stays as frames
//! come and as epochs are taken out, and what is read as a seal has it, whoever wrote that. `specs/Kept.antt` says what a seal of a bundle
//! has, and which runs go on from it: they are those that never stopped, but for the order in which their caches list entries.
//!
//! Why what a check keeps of a whole bundle is within the bounds of a seal, and so has a text, `standing.rt` says.
//!
//! The crate has no code, only the laws of `certified.rt`, `kept.rt` and `standing.rt`. It stands on `bundle_report` for runs that read logs, and on `seals` for
//! what is kept. Begin with `specs/Base.antt`.
#![tactic(auto)]

mod certified;
mod kept;
mod standing;

pub use certified::runs_can_be_certified;
pub use kept::{seals_can_be_certified, seals_keep_what_was_read, what_is_kept_can_go_on};
pub use standing::{digests_give_lanes, what_is_kept_has_stood};
