//! The shipped host as a host of the machine of `host_core`: its numbers, what it does for a request and for a shard, and that its
//! seats mirror again behind that.
//!
//! What it does is a function of what stands at the place, in `specs/ShippedHost.antt`: the plans of `host_plan` and the moves of
//! `protection_moves` are what these functions give. The crate has no code to run. Begin with `settings.rt` and
//! `specs/ShippedHost.antt`.
#![tactic(auto)]

mod laws;
mod settings;

pub use laws::{
    a_chain_is_its_links, promotable_keys_are_one_list, what_is_moved_is_a_move,
    what_is_served_is_planned,
};
pub use settings::Settings;
