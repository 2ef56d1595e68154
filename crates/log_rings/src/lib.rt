//! The way of a log from the worker that writes it to the verifier that is fed with it, while both are at work.
//!
//! A lane is a ring of `rtrb` that takes parcels: buffers of `host_log`, each with its number and a mark that says
//! whether it is the last of its round. No call waits for the other end. Begin with `Lane` in `lane.rt`, beside
//! `specs/Lanes.antt`, which says what is known of its two ends.
#![tactic(auto)]

mod lane;
mod parcel;
mod settling;

pub use lane::{Receiver, Sender};
pub use parcel::Parcel;
pub use settling::{Lane, Settled};
