//! The clock that each verifier keeps: Lamport's logical clock, in epochs.
//!
//! A stamp is an epoch and a counter in it. A verifier stamps what it hands away, and moves its clock
//! above the stamp of what it takes in. The crate stands on `base_words`, in which its steps are stated.
//!
//! Begin at `clock`, beside `specs/Clock.antt`; `laws.rt` says that the clock never falls and what going to the
//! next epoch seals.
#![tactic(auto)]

mod clock;
mod header;
mod laws;
mod stamp;

pub use clock::{Clock, ClockFault};
pub use header::Header;
pub use laws::{
    advancing_seals, clock_keeps_its_bounds, clock_never_falls, receiving_passes_the_stamp,
    sending_sets_the_stamp, stamps_are_ordered,
};
pub use stamp::Stamp;
