//! The host's plans: the commands of the setup and of one request, and what they leave of the records.
//!
//! The crate stands on `host_shard` for shards and chains, on `log_codec` for commands and on `merkle_records` for nodes.
//! Begin with `plan` in `serving.rt` beside `specs/Plan.antt`, then `setup` in `starting.rt` beside `specs/Setup.antt`.
#![tactic(auto)]

mod commands;
mod fault;
mod moments;
mod plans;
mod serving;
mod starting;

pub use commands::Commands;
pub use fault::{PlanFault, SetupFault};
pub use moments::renewed;
pub use plans::Plan;
pub use serving::plan;
pub use starting::setup;
