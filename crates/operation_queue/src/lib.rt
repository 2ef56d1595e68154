//! Operations that wait for their epoch to be certified, each kept by its length.
//!
//! An operation waits as a head of 40 bytes, with its value's bytes behind those of the one before. A contract sees an
//! `OperationQueue` as `Waiting`, its operations and how many more there is room for, and what it lends, `Operations`, as
//! the list of them; `specs/Heads.antt` says which operations heads and bytes are. The crate stands on `slice_queue` for the
//! two buffers and on `record_text` for operations. Begin with `OperationQueue` in `queue.rt`.
#![tactic(auto)]

mod head;
mod lent;
mod queue;

pub use lent::Operations;
pub use queue::OperationQueue;
