//! Why a rolling host with one worker logs what the plain host logs.
//!
//! `specs/Deeds.antt` says what the only worker of a host does, one deed after another, and `specs/Loop.antt` of `host_serving` what the
//! loop of a rolling host's worker keeps to. With these a whole run in either mode is the deeds that the script asks, in one order; and
//! what a deed logs is determined. The crate has no code to run. Begin with `laws.rt`, then read `specs/` in the order of its `Lib.antt`.
#![tactic(auto)]

mod laws;

pub use laws::one_worker_logs_the_same;
