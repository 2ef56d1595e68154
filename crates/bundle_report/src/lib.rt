//! The report of a bundle: what it is by the bytes, why the runs of its logs come to it, and what it means.
//!
//! `specs/BundleReport.antt` defines the report by the histories of all logs, `specs/Answer.antt` what a check answers
//! to bytes, and `specs/Headline.antt` what that means: the certified answers are serial, or the exhibit defined from the
//! bundle is a real collision. `specs/RunReport.antt` and `specs/Judged.antt` say the same of what runs have come to,
//! which is what the code has in its hands; `proofs/` shows that the two are one.
//!
//! The crate has no code but a few types and the laws of `laws.rt`. It stands on `soundness`, whose theorem is the
//! headline, on `verifier_run` and on `report_text`. Begin with `specs/BundleReport.antt`.
#![tactic(auto)]

mod judged;
mod laws;
mod refused_log;

pub use judged::{Judged, Uneven};
pub use laws::certified_answers_are_sound;
pub use refused_log::RefusedLog;
