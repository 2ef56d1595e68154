//! The host's records as the workers of a phase have them: a table of `host_epochs` with no further epoch, in which each entry
//! serves a request.
//!
//! Begin with `Records` in `records.rt`: `make` and `close` in `making.rt`, `try_take` and `give` in `taking.rt`, `attempt` in
//! `attempting.rt`; then read `specs/` in the order of its `Lib.antt`.
//! What holds between any two steps is the rule of `host_epochs`; `proofs/PhaseLaws.antt` has why its entries are services.
#![tactic(auto)]

mod answers;
mod attempting;
mod making;
mod records;
mod taking;
mod told;
mod views;

pub use answers::Attempt;
pub use host_epochs::{Hand, Loss, Refused, Taking};
pub use records::Records;
pub use told::{Service, Stop};
pub use views::Row;
