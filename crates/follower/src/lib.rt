//! The follower: the map that a bundle certifies, for whoever keeps a copy of the store.
//!
//! `follow` reads a bundle as a check does, by `tell_bundle` of `check_core`, tells nothing of its epochs, and writes the plain map
//! behind all certified operations, of which it keeps none. `specs/Answer.antt` says what it writes. The crate stands on
//! `check_core`, and on the map of `stamp_order`. Begin with `following.rt`; `followed.rt` has the map as a fold over operations,
//! and `laws.rt` says that it is the plain map of the laws of a host.
#![tactic(auto)]

mod followed;
mod following;
mod laws;

pub use followed::Followed;
pub use following::follow;
pub use laws::the_followed_map_is_the_plain_map;
