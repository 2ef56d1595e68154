//! Why what many workers of the rolling shipped host did in its round was one list of events.
//!
//! The crate stands on `round_order`, whose law it meets for the shipped host; it has no code to run.
#![tactic(auto)]

mod laws;

pub use laws::{
    nothing_is_hot, rolling_rounds_are_lists_of_events, scans_are_what_the_host_does,
    the_rolling_host_is_steady,
};
