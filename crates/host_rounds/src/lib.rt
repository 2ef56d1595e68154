//! The rounds of a host: a round's logs go to the vault in frames of a bundle, are fed to the verifiers' runs, and the
//! lines of what these then certify are written.
//!
//! The crate stands on `host_log` for the frames, on `certified_epochs` for the runs and the lines, and on `epoch_book` for
//! the verdicts on the epochs that a close seals. Begin with `Rounds` in `rounds.rt` and `closing.rt`, beside
//! `specs/Bundle.antt` and `specs/SoFar.antt`, which say what the vault and the runs have.
//! What the world of a host does between two rounds is none of its business: it takes the logs as they come.
#![tactic(auto)]

mod books;
mod closing;
mod counting;
mod framing;
mod laws;
mod lending;
mod rounds;
mod sealers;
mod sealing;
mod with_passes;

pub use counting::with_more;
pub use laws::rounds_make_a_bundle;
pub use rounds::{Rounds, write_end};
