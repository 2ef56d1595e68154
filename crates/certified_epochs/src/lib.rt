//! Certifying epoch by epoch: which epochs the runs of all verifiers certify, and their lines, with receipts or without.
//!
//! The crate stands on `epoch_gather` for the verdict of an epoch, on `verifier_run` for the runs, and on
//! `bundle_report`, which says what a report is. Begin with `certifier.rt`.
#![tactic(auto)]

mod certifier;
mod ending;
mod fed_run;
mod gathering;
mod lines;
mod one_epoch;
mod opening;
mod pieces;
mod telling;

pub use certifier::Certifier;
pub use ending::end_of;
pub use fed_run::FedRun;
pub use opening::open_runs;
pub use telling::Telling;
