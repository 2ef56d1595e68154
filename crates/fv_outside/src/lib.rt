//! The outside of the store: where its input comes from, where its output and its bundle go, and
//! what a worker waits at. It stands on std and on `base_words`, and every engine stands on it.
//!
//! Begin with the traits: `Source`, `Sink`, `Vault` (a sink with a name) and `Gate`. Each object
//! means bytes, where it tells them, and a count of faults, so that a caller who is answered
//! `Failed` can see that it was the object that failed. `write_all` is the loop over `Sink::write`
//! that engines share, and `Failure` says why a call of theirs was not carried through.
//!
//! The objects in memory say in their contracts what each call answers, so any run over them can be
//! computed: `MemorySource`, `MemorySink`, `MemoryVault` and `MemoryCounter` fail where they are told
//! to, and `SureSource`, `SureSink`, `SureVault` and `SureCounter` never fail. `StdSource`, `StdSink`,
//! `FileVault`, `FileCounter` and `FreeGate` are the trusted edge: a few lines over std, which count
//! faults and tell neither bytes nor a number.
#![tactic(auto)]

mod calls;
mod counters;
mod errors;
mod failure;
mod file_counters;
mod file_vaults;
mod gates;
mod memory_sinks;
mod memory_sources;
mod sinks;
mod sources;
mod std_streams;
mod sure_counters;
mod sure_sinks;

pub use base_words::Memory;
pub use counters::{Counter, MemoryCounter};
pub use errors::Failed;
pub use failure::Failure;
pub use file_counters::FileCounter;
pub use file_vaults::FileVault;
pub use gates::{FreeGate, Gate};
pub use memory_sinks::{MemorySink, MemoryVault};
pub use memory_sources::{MemorySource, SureSource};
pub use sinks::{Sink, Vault, write_all};
pub use sources::Source;
pub use std_streams::{StdSink, StdSource};
pub use sure_counters::SureCounter;
pub use sure_sinks::{SureSink, SureVault};
