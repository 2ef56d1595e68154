//! A round of a host's script, served by all its workers at once: each has a thread of its own, and takes the records from a
//! table. What each logs its verifier reads at the same time, in a thread of its own too.
//!
//! The crate stands on `round_workers` for what a worker does in its thread, on `host_epochs` for the table, on `verifier_feeds` for the
//! way to the verifiers, on `table_order` for why what the workers did was one list of events, and on `host_world`, which lends its
//! records and workers. A round serves one phase, or in a rolling host all of them, and its workers go on from epoch to epoch. Begin with
//! `serve_round_at_once` in `rounds.rt`, beside `specs/Round.antt`.
#![tactic(auto)]

mod laws;
mod pairing;
mod round_laws;
mod rounds;
mod serving;
mod turns;
mod worker_pair;

pub use rounds::serve_round_at_once;
pub use worker_pair::WorkerPair;
