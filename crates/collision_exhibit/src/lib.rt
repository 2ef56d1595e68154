//! What an audit of logs shows: nothing, two strings with one digest, or two multisets of elements with one sum.
//!
//! The exhibit is defined by `exhibit_of` in `soundness`, from the histories of all logs. A run of `verifier_run` keeps of
//! each accepted command only what an exhibit can be made of: an `AuditEvent`. Those of all runs are put into the one
//! order of their moments; then elements are compared epoch by epoch, and what came back by its digest is compared with
//! what went out. The crate stands on `verifier_run`, which runs the logs, and on `soundness`, whose definitions it
//! computes. Begin with `audit_event.rt` and `specs/AuditEvent.antt`.
#![tactic(auto)]

mod audit_change;
mod audit_event;
mod auditing;
mod clash;
#[cfg(test)]
mod clash_tests;
mod elements;
#[cfg(test)]
mod elements_tests;
mod events;
mod last_evicted;

pub use audit_event::{AuditChange, AuditEvent};
pub use auditing::{audit, exhibit_of_runs};
pub use record_text::{Elements, Exhibit, ValueText};
