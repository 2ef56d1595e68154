//! How a host serves a script from its setup to the last line of its report: the workers log, the vault takes their logs in
//! frames, their verifiers read them, and what these certify is written. Of a load its summary is written in place of that.
//!
//! The crate stands on `worker_threads` for a round, on `host_serving` for a close, and on `host_rounds` for what becomes
//! of their logs. Begin with `serve` in `serving.rt`, beside `specs/Serving.antt`. It is made of the calls of `Runner` in
//! `runner.rt`, beside `specs/Runners.antt`: its setup, each round, each close, and its end.
#![tactic(auto)]

mod accounts;
mod ending;
mod handing;
mod laws;
mod loads;
mod runner;
mod serving;
mod world_run;

pub use accounts::Account;
pub use ending::RunEnd;
pub use laws::a_header_begins_the_bundle;
pub use loads::Load;
pub use runner::{NextCall, Runner};
pub use serving::serve;
