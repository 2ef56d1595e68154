//! What a close logs for one shard. Which of its records are hot changes here alone.
//!
//! The crate stands on `host_shard` for shards and hot records and on `host_plan` for commands and clocks. Begin with
//! `migrate` in `migrating.rt` beside `specs/Move.antt`.
#![tactic(auto)]

mod counting;
mod demoting;
mod descents;
mod fault;
mod few_touched;
mod hot_places;
mod migrating;
mod promotable;
mod promoting;
mod renewing;
mod saving;

pub use fault::MoveFault;
pub use hot_places::HOT_PLACES;
pub use migrating::migrate;
