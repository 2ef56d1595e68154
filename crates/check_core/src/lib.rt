//! A check of a bundle of logs: what is read, and the report of what it certifies.
//!
//! `check` reads a bundle from a source and writes its report to a sink. Its contract says that this is the
//! report by `specs/BundleReport.antt` of `bundle_report`, and what it means by `specs/Headline.antt` there: the certified
//! answers are serial, or the exhibit defined from the bundle is a real collision. It keeps no log: `batch.rt` reads some
//! frames, `feeding.rt` feeds them to the runs of their verifiers, side by side, and the lines of each epoch that they then
//! certify are written before more is read. While the first frames of a batch are fed, `passing.rt` reads the rest.
//!
//! A check is one case of `tell_bundle`, which tells each epoch so or not at all, and writes what a fold makes of the certified
//! operations before the last line.
//!
//! `check_seal` checks so, and where the report ends with `done` it seals what was read, in a vault that it named: `sealing.rt`, with what it
//! promises in `specs/Sealing.antt`. `resume` reads a seal, by `seal_reading.rt`, and goes on from it with the frames that follow: `resuming.rt`, with
//! the theorem that this is as never having stopped, in `specs/Resuming.antt`. All of them are one loop, `go_on` in `going_on.rt`, which goes on
//! from wherever runs stand.
//!
//! An audit keeps whole logs. `reading.rt` reads a source to the joined logs, and `conclude` says how many epochs they
//! certify, writes nothing, and hands on the runs of the logs with what they kept.
//!
//! The crate stands on `bundle_frames` and `verifier_run`, which read, on `certified_epochs`, and on `seals` and `resumed_runs` for what is kept.
//! Begin with `checking.rt`, beside `specs/Stream.antt`.
#![tactic(auto)]

mod batch;
mod checked;
mod checking;
mod concluding;
mod feeding;
mod going_on;
mod intake;
mod judging;
mod passing;
mod reading;
mod resuming;
mod seal_reading;
mod sealing;
mod told;
mod unresumed;
mod written;

pub use batch::{BATCH_FRAMES, Batch, Filled, FrameHolder};
pub use checking::{check, tell_bundle};
pub use concluding::{Concluded, Conclusion, conclude};
pub use feeding::{FEW_BYTES, feed_batch};
pub use intake::Intake;
pub use passing::{FIRST_FRAMES, pass_batch};
pub use reading::read_bundle;
pub use report_text::Status;
pub use resuming::resume;
pub use sealing::check_seal;
pub use told::Told;
pub use written::WrittenFold;
