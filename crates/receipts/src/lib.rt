//! What a client can keep of an answer: the receipt of an operation, and the certificate of the epochs that it lies in.
//!
//! Both are texts with a tag, which who holds the key can make and test (HMAC, RFC 2104). A receipt is of a key of 64 bits or of one
//! of 128, which its first byte says. The crate stands on
//! `record_text` and `record_hash`, and takes no memory. `specs/Receipts.antt` says how they are spelled, and
//! `specs/Acceptance.antt` when a receipt is accepted. Begin with `issue` in `issuing.rt`, `read_receipt` in `reading.rt`, and `accept` in `accepting.rt`;
//! `laws.rt` says that no text is of two things.
#![tactic(auto)]

mod accepting;
mod issuing;
mod laws;
mod reading;
mod tagged_texts;

pub use accepting::{Acceptance, accept, is_same_tag};
pub use issuing::{CERTIFICATE_LEN, LONGEST_RECEIPT, certificate, issue, kind_tag, push_key};
pub use laws::texts_tell_what_they_are_of;
pub use reading::{read_certificate, read_receipt};
pub use tagged_texts::{Certificate, Receipt, TAG_LEN};
