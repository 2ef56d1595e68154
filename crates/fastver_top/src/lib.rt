//! The top call: the program's words, what it reads and what it writes.
//!
//! `fastver` in `top.rt` is what the program runs: `program_words` reads its words, a check is `check_core`'s,
//! and an audit is `audit_text` in `auditing.rt`, which asks `collision_exhibit` for what there is to exhibit. A run is
//! `run_script` in `running.rt`: a script is read whole by `scripts.rt`, and `verifier_threads` serves it. `serve_generated`
//! in `generating.rt` serves a load that is made of a seed in place of a script, and writes its summary. `accept_text` in
//! `accepting.rt` reads a receipt and a certificate by `receipt_lines`, and says by `receipts` whether the receipt is accepted.
//! `sign_text` in `signing.rt` reads the requests of a client, and signs them by `script_text`.
//! `follower` writes the map of a bundle, and `bundle_upgrade` the bundle in version 3. That a check is sealed, and that one goes on from
//! a seal, is `check_core`'s too; that both together report the whole bundle is a law in `laws.rt`. So is that with one worker the report
//! of a run is the same whether its epochs roll or not, by `one_worker`.
//! The crate stands on these, and on the objects of `fv_outside`. Begin with `fastver`, beside
//! `specs/Rules.antt`, the table of what each command may do, and `specs/Answers.antt`, what each answers.
#![tactic(auto)]

mod accepting;
mod audit_end;
mod auditing;
mod generating;
mod laws;
mod reading;
mod running;
mod scripts;
mod signing;
mod top;

pub use accepting::accept_text;
pub use audit_end::AuditEnd;
pub use auditing::audit_text;
pub use generating::serve_generated;
pub use laws::{
    a_rolling_run_of_one_worker_reports_the_same, a_sealed_check_goes_on,
    only_memory_may_be_wanting, only_words_that_ask_for_nothing_are_refused,
};
pub use reading::read_all;
pub use record_text::{Exhibit, Refusal};
pub use report_text::Status;
pub use running::run_script;
pub use scripts::{ScriptStop, read_script};
pub use signing::sign_text;
pub use top::{INPUT_LIMIT, fastver};
