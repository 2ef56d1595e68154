//! A verifier's log, taken in any pieces: what was kept of its commands, and what ended it.
//!
//! What the commands of a verifier come to is `trace` in `verifier_commands`; what a run keeps of each, and where, is said
//! by a type that is `Kept`, as an `Operation` is, and what bytes as a log then come to by `specs/LogCourse.antt`. A `Run` is fed a
//! log's bytes piece by piece, and a command may be cut between two of them: `specs/Progress.antt` says what it has come
//! to, and `laws.rt` that this is what the whole log comes to, however it is cut. `sealed.rt` gives what is kept of a run where
//! its bundle is sealed, and the run that goes on from that. The crate stands on `log_codec` for the commands, on
//! `verifier_commands` for what each does, on `operation_queue` for the gets and puts that wait, and on `seals` for what is kept.
//! Begin with `Run` in `run.rt`.
#![tactic(auto)]

mod kept;
mod laws;
mod logs;
mod run;
mod sealed;
mod tracer;

pub use kept::Kept;
pub use laws::{
    like_runs_are_taken_alike, like_runs_stay_like, logs_are_handed_out_in_order,
    logs_come_to_their_course, pieces_do_not_matter, runs_go_on, runs_go_on_from_what_was_kept,
    what_was_taken_leaves_no_trace,
};
pub use logs::{run_log, run_logs};
pub use run::{FeedStop, Run};
