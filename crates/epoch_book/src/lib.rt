//! The parts of one epoch, gathered while the verifiers are at work: each hands its part in by adding it to shared words.
//!
//! A book has 18 words, one for each lane and count of both sums, on the kit's `atomic_table`, and a pass for each
//! verifier. `rule.rt` and `specs/Words.antt` say what holds of the words between any two steps. What the words come to
//! is judged as `epoch_gather` judges parts. Begin with `EpochBook` in `book.rt`, beside `specs/Passes.antt` and
//! `specs/Settled.antt`.
#![tactic(auto)]

mod book;
mod gathering;
mod numbers;
mod pass;
mod rule;

pub use book::EpochBook;
pub use pass::Pass;
