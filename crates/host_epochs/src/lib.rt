//! The host's records as many workers have them: contents in places that a worker takes by one compare-and-swap each, and epochs
//! that each worker enters by itself.
//!
//! No lock stands round the records. A place has a word and a cell, a slot of the kit's `atomic_table`; whoever changes the word
//! from 0 to its own number holds the place, moves the content out, and gives it back by a store of 0. Behind the places' words
//! stand how many epochs may be entered, whether a worker stopped, and for each worker with how many epochs it is through. In each
//! epoch that a worker enters it scans its own places, and says then that it is through; once all are through with an epoch, the
//! next one may be entered. A phase, which all workers begin and end in one epoch, is the table with no further epoch.
//!
//! Between any two steps the rule of `specs/Rule.antt` holds, over what the workers' hands know; `specs/Plays.antt` has what each
//! kind of step does to that, and `proofs/PlaceLemmas.antt` and `proofs/WordLemmas.antt` that it keeps the rule. What a worker
//! makes of a content is `plan` of `host_plan`, or `scan` in `scanning.rt`.
//!
//! Begin with `Epochs` in `epochs.rt`: `make` in `opening.rt`, `try_take` and `give` in `taking.rt`, `done`, `raise_done`, `raise`
//! and `newest` in `entering.rt`, `stop` and `stopped` in `stopping.rt`, `close` in `closing.rt`; then read `specs/` in the order
//! of its `Lib.antt`.
#![tactic(auto)]

mod answers;
mod closing;
mod entering;
mod epochs;
mod hand;
mod making;
mod opening;
mod plays;
mod scanning;
mod stopping;
mod taking;
mod told;
mod views;

pub use answers::{Refused, Taking};
pub use epochs::Epochs;
pub use hand::Hand;
pub use making::{Law, Making};
pub use scanning::scan;
pub use told::{Entry, Loss, Meeting, Reached, Stop};
pub use views::{Desk, Held, Rack, Row, View};
