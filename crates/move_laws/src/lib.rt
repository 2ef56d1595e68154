//! What the commands of a move do to a verifier, and to the host's records, and what one transfer among them does.
//!
//! In a transfer a hot record comes back to its shard, or the record of a key becomes hot, while the shard's frontier stands
//! in the cache of the worker that moves it. The crate stands on `protection_moves` for moves and transfers and on
//! `host_laws` for how a verifier runs commands; it has no code to run. Begin with `laws.rt` beside `specs/Moved.antt`, and
//! go on with `transfer_laws.rt` beside `specs/Transfers.antt`.
#![tactic(auto)]

mod laws;
mod transfer_laws;

pub use laws::{
    a_move_is_a_deed, a_move_is_typed, a_move_mirrors, a_move_runs, a_move_takes_what_is_counted,
};
pub use transfer_laws::{a_transfer_is_typed, a_transfer_mirrors, a_transfer_runs};
