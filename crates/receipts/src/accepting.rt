//! Whether a receipt is accepted.
ghost use Rattle.std.specs.Prelude.{◌≡◌, ◌↔◌, IsTrue};
ghost use Rattle.receipts.specs.Acceptance.{IsAnswer};

use crate::issuing::{certificate_text, receipt_text};
use crate::tagged_texts::{Certificate, Receipt, TAG_LEN};
use record_hash::Digests;
use record_text::Operation;

/// What a receipt and a certificate come to under a key.
#[derive(Clone, Debug, PartialEq, Eq, Drop)]
pub enum Acceptance {
    /// Both were made with the key, and the operation is of a certified epoch.
    Accepted(Operation),
    /// One of the tags isn't that of its text.
    NotTagged,
    /// Both tags hold, and the operation's epoch isn't one of those that are certified.
    NotCertified,
}

/// What a receipt and a certificate come to. Both tags are made anew and compared to their ends, whatever the first of
/// them comes to and wherever they differ.
pub fn accept<D: Digests>(digests: &D, receipt: &Receipt, certificate: &Certificate) -> Acceptance
    ensures answer { IsAnswer (D.functions digests.now) receipt.now certificate.now result }
{
    let operation = &receipt.operation;
    let text = receipt_text(&operation.by_ref());
    let receipt_holds = is_same_tag(&digests.tag(text.as_slice()), &receipt.tag);
    let text = certificate_text(certificate.first, certificate.last);
    let certificate_holds = is_same_tag(&digests.tag(text.as_slice()), &certificate.tag);
    if !receipt_holds || !certificate_holds {
        return Acceptance::NotTagged;
    }
    let epoch = operation.stamp.epoch;
    if epoch < certificate.first || certificate.last < epoch {
        return Acceptance::NotCertified;
    }
    Acceptance::Accepted(operation.copy())
}

/// Whether two tags are one. It takes the same steps whatever they are: who tries tags learns nothing of the right one
/// from the time that this takes.
pub fn is_same_tag(tag: &[u8; TAG_LEN], other: &[u8; TAG_LEN]) -> bool
    ensures same { IsTrue result ↔ (tag.now ≡ other.now) }
{
    let mut differing = 0;
    for place in 0..TAG_LEN {
        differing |= tag[place] ^ other[place];
    }
    differing == 0
}
