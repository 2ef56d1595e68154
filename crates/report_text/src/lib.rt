//! The report of a bundle, line by line, the statuses in which the program ends, and what an audit shows.
//!
//! Each line is one text, defined in `specs/Lines.antt`, `specs/Status.antt` and `specs/Exhibit.antt`. The
//! crate stands on `fv_outside` for the sinks that lines are written to, and on `record_text`, `multiset_sum` and
//! `receipts` for what they tell. `specs/Answer.antt` says what a call that reads and writes owes. Begin with
//! `Status` in `status.rt`, the writers in `lines.rt`, and `write_exhibit` in `exhibit.rt`.
#![tactic(auto)]

mod digits;
mod ending;
mod exhibit;
mod key_lines;
mod lines;
mod page;
mod status;

pub use ending::BundleEnd;
pub use exhibit::write_exhibit;
pub use key_lines::key_line;
pub use lines::{
    LONGEST_LINE, RECEIPT_LINE_ROOM, certificate_line, epoch_line, last_line, operation_line,
    receipt_line, sealed_line, write_epoch, write_last, write_operation, write_sealed,
};
pub use page::{PAGE_ROOM, Page};
pub use status::Status;
