//! The shipped host keeps its promise: whatever happens, its logs are accepted, its answers follow the script, and its
//! sealed epochs are certified, with nothing to exhibit. So it is whichever keys become hot, and where all phases are served in
//! one round.
//!
//! `host_core` shows this of any host whose deeds fit and are clear. Here the deeds are those of `shipped_host`, which `host_laws`
//! and `move_laws` speak of, and they fit; and what `host_holds` says of them makes its contents hold the plain map. The crate has
//! no code to run. Begin with `laws.rt`, then read `specs/Promise.antt`, `specs/Mirroring.antt` and `specs/Holds.antt`.
#![tactic(auto)]

mod laws;

pub use laws::{
    moves_are_what_the_host_does, plans_are_what_the_host_does, scripts_ask_for_keys_in_range,
    the_contents_hold_the_plain_map, the_shipped_host_is_steady,
    the_shipped_host_keeps_its_promise, what_is_enabled_is_ready,
};
