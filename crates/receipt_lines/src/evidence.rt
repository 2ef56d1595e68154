//! What two lines say, or which of them is refused.
use receipts::{Certificate, Receipt};
use record_text::Cause;

/// A receipt, and the certificate under which it is to be accepted.
#[derive(Clone, Debug, PartialEq, Eq, Drop)]
pub struct Evidence {
    pub receipt: Receipt,
    pub certificate: Certificate,
}

/// This line, counted from 1, is the first outside the grammar, and this is the first test that it doesn't pass.
#[derive(Clone, Copy, Debug, PartialEq, Eq)]
pub struct BadLine {
    pub line: u64,
    pub cause: Cause,
}
