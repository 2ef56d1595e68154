//! The data values that the host's contents hold, and what a request and a move make of them.
//!
//! A shard's places hold of a key the value of its hot record, and where it has none that of its record in the shard. A put sets
//! the value of its key and no other; a get, whether it makes a record or not, and a move leave them all. So contents hold what a
//! plain map holds. The crate has no code to run. Begin with `laws.rt`, then read `specs/Holding.antt`.
#![tactic(auto)]

mod laws;

pub use laws::{a_move_leaves_what_is_held, a_request_leaves_what_it_writes};
