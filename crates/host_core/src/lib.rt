//! Why no log of the shipped host is ever refused, whatever its workers do and in whatever order.
//!
//! The world is a machine: workers take places, serve the requests that a script asks of them, give the places back, and
//! move the shards at a close. What a worker logs for a request and for a shard is left open; it is a host's, of which
//! the laws take that each such deed fits: a verifier at rest accepts it, it adds the elements that waited at its places,
//! evicts those that wait there then, and leaves the verifier at rest (`IsFit`). From this it follows of every list of
//! enabled events that each log is accepted, answers what the script asks, and that each epoch that all have sealed is
//! certified. Where each operation is done where its key's value is held (`IsStoring`), the contents hold the plain map.
//!
//! A rolling host serves all phases in one round, in which no worker waits for a phase's end: once each has scanned its shards
//! in an epoch, so that nothing waits there in an earlier one, all may go on to the next. It is the same machine, and the same
//! laws hold, but that an answer may come in a later epoch than its phase's.
//!
//! The crate stands on `soundness`, whose histories it speaks of; it has no code to run. Begin with `laws.rt`, then read
//! `specs/` in the order of its `Lib.antt`.
#![tactic(auto)]

mod laws;

pub use laws::{
    answers_follow_the_script, certified_answers_are_serial, contents_hold_the_plain_map,
    events_go_on, evicted_elements_are_added_or_wait, logs_are_accepted,
    pending_elements_are_of_the_epoch, sealed_epochs_are_certified, what_is_enabled_is_ready,
};
