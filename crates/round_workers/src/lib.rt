//! A worker's part of a round: what it does in its thread with what the script asks of it, at a table of records that it shares with
//! the other workers, while its log goes to its verifier.
//!
//! A round begins in one epoch and goes on to as many more as the table allows. A worker serves its requests in order, each in an
//! epoch of at least the request's phase. To come to the next epoch it waits until all workers are through with its own; once it has
//! entered one it scans its own places and says that it is through with it. A phase of a host whose epochs close between its phases is
//! the round with no further epoch: there nothing is waited for but a place that is held.
//!
//! A worker stops where its counters end or no epoch is to come; who waits for an epoch then ends too. Want of memory is told by a
//! flag, which who waits for an epoch reads.
//!
//! The crate stands on `host_epochs` for the table, on `host_plan` for what a request's commands are, on `worker_log` and
//! `verifier_feeds` for the log's way to the verifier. Begin with `WorkerThread::serve_own` in `worker_thread.rt`, beside
//! `specs/Parts.antt`; then `serving.rt`, `entering.rt` and `scanning.rt`.
#![tactic(auto)]

mod entering;
mod scanning;
mod serving;
mod shared_round;
mod turn;
mod waiting;
mod worker_thread;

pub use shared_round::SharedRound;
pub use turn::Turn;
pub use worker_thread::WorkerThread;
