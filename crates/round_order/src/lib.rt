//! Why what many workers did in a round, through any number of epochs, was one list of events.
//!
//! Each worker tells its turns, in its own order: the requests that it served, and the places that it scanned. Of each place it is
//! told in which order its turns were. Where the two tell of the same turns, the turns by the stamps of their evicts, with the epochs
//! that the workers go on by between them, are a list of enabled events of the world, and it ends in the contents and clocks that are
//! told. A phase is a round of one epoch.
//!
//! The crate stands on `host_core`, whose world it speaks of; it has no code to run. Read `specs/` in the order of its
//! `Lib.antt`.
#![tactic(auto)]

mod laws;

pub use laws::{a_phase_is_a_round, a_round_has_one_order, rounds_end_so};
