//! The upgrade of a bundle: the same bundle in version 3 of the format, with the same report.
//!
//! `upgrade` reads a bundle of any version and keeps its logs, as an audit does. Where its report ends with `done` it writes
//! the header in version 3 and each log in order, by slots; else it writes nothing. `specs/Answer.antt` says what it
//! writes, and that what it writes has the report of what was read. The crate stands on `check_core`, which reads bundles and
//! says what they come to, on `slot_rewriting` and `rewriting_laws` for logs whose commands name paths, and on `host_log` for
//! the frames. Begin with `upgrading.rt`; `rewriting.rt` rewrites a log.
#![tactic(auto)]

mod nothing_kept;
mod rewriting;
mod upgrading;

pub use nothing_kept::NothingKept;
pub use upgrading::upgrade;
