//! The summary of a load that was made of a seed: how often each worker got, put and deleted, by the certified operations.
//!
//! Operations are counted as they are certified, and none is kept. `specs/Tallies.antt` says what is counted, and
//! `specs/Summary.antt` how it is spelled. The crate stands on `record_text` and `report_text`. Begin with `Summary` in
//! `summary.rt`; `laws.rt` says that tallies add up.
#![tactic(auto)]

mod laws;
mod lines;
mod summary;
mod tally;

pub use laws::tallies_add_up;
pub use summary::Summary;
pub use tally::Tally;
