//! What is made of operations, one after another in their order.
//!
//! Whoever puts certified operations in order hands each to an `OperationFold`, which keeps what it makes of them and no
//! operation itself: counts, or a map. The crate stands on `record_text` for operations. Begin with `folding.rt`.
#![tactic(auto)]

mod folding;
mod nothing;

pub use folding::OperationFold;
pub use nothing::NothingMade;
