//! Why what many workers did at once was one list of events.
//!
//! Each worker tells what it served, in its own order, and of each place it is told in which order it was served there.
//! Where the two tell of the same servings, each worker's from its clock on and each place's from its content on, the
//! servings by the stamps of their evicts, and then the stops, are a list of enabled events of the world, and it ends in
//! the contents and clocks that are told. That shards mirror is not taken: only what a serve does to a clock and an
//! element (`IsSteady`). A close is simpler: there each worker moves shards of its own.
//!
//! The crate stands on `host_core`, whose world it speaks of; it has no code to run. Read `specs/` in the order of its
//! `Lib.antt`.
#![tactic(auto)]

mod laws;

pub use laws::{a_close_has_one_order, a_phase_has_one_order};
