//! What is handed in to be accepted, as text: a line with a receipt, and a line with the certificate under which it is to be
//! accepted.
//!
//! What bytes mean as these two lines is defined in `specs/Evidence.antt`, over the texts of `specs/Tagged.antt`. The crate
//! stands on `receipts`, on the lines and words of `script_text`, on `record_text` for the causes of a refused line, and on
//! the kit's `hex` and `memchr`; it takes no memory. Begin with `read_evidence` in `reading.rt`.
#![tactic(auto)]

mod digits;
mod evidence;
mod ranges;
mod reading;
mod splitting;

pub use evidence::{BadLine, Evidence};
pub use reading::read_evidence;
