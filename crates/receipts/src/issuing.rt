//! Receipts and certificates are issued: each is its text and the tag of the text.
ghost use Rattle.std.specs.Prelude.{◌≡◌, ◌+◌, ◌≤◌, ◌++◌, length};
ghost use Rattle.std.specs.Int.{to_be_bytes};
ghost use Rattle.arrayvec.specs.ArrayVec.{array_vec_len};
ghost use Rattle.record_text.specs.Tree.{word_width};
ghost use Rattle.receipts.specs.Receipts.{receipt_tag, kind_tag, receipt_text, certificate_text, tagged};

use crate::tagged_texts::TAG_LEN;
use arrayvec::ArrayVec;
use record_hash::Digests;
use record_text::{OperationRef, push_blob, push_stamp, push_u16};

/// The first byte of the receipt of a key of 64 bits.
pub(crate) const RECEIPT: u8 = 1;

/// The first byte of a certificate.
pub(crate) const CERTIFICATE: u8 = 2;

/// The first byte of the receipt of a key of 128 bits.
pub(crate) const WIDE_RECEIPT: u8 = 3;

/// The kinds of operations, as the tags of their commands.
pub(crate) const GET: u8 = 6;

pub(crate) const PUT: u8 = 7;

/// The most bytes of a receipt with its tag.
pub const LONGEST_RECEIPT: usize = 325;

/// How many bytes a certificate with its tag has.
pub const CERTIFICATE_LEN: usize = 41;

/// The receipt of an operation: its text and the text's tag.
pub fn issue<D: Digests>(digests: &D, operation: &OperationRef) -> ArrayVec<u8, LONGEST_RECEIPT>
    ensures text { result.items ≡ tagged (D.functions digests.now) (receipt_text operation.now) }
{
    let mut receipt = receipt_text(operation);
    let tag = digests.tag(receipt.as_slice());
    push_all(&mut receipt, &tag);
    receipt
}

/// The certificate of the epochs from the first on: its text and the text's tag.
pub fn certificate<D: Digests>(digests: &D, first: u32, last: u32) -> ArrayVec<u8, CERTIFICATE_LEN>
    ensures text { result.items ≡ tagged (D.functions digests.now) (certificate_text first last) }
{
    let mut certificate = certificate_text(first, last);
    let tag = digests.tag(certificate.as_slice());
    push_all(&mut certificate, &tag);
    certificate
}

// The text of a receipt, with room for a tag.
#[tactic(auto, unfolding(crate::specs::Receipts::receipt_text))]
pub(crate) fn receipt_text(operation: &OperationRef) -> ArrayVec<u8, LONGEST_RECEIPT>
    ensures text { result.items ≡ receipt_text operation.now }
    ensures room { array_vec_len result + TAG_LEN ≤ LONGEST_RECEIPT }
{
    let mut text = ArrayVec::new();
    text.push(receipt_tag(operation.is_wide()));
    push_stamp(&mut text, operation.stamp());
    push_u16(&mut text, operation.verifier());
    push_all(&mut text, &operation.index().to_be_bytes());
    text.push(kind_tag(operation.is_put()));
    push_key(&mut text, operation.is_wide(), operation.key());
    push_blob(&mut text, operation.value());
    text
}

// The text of a certificate, with room for a tag.
#[tactic(auto, unfolding(crate::specs::Receipts::certificate_text))]
pub(crate) fn certificate_text(first: u32, last: u32) -> ArrayVec<u8, CERTIFICATE_LEN>
    ensures text { result.items ≡ certificate_text first last }
    ensures room { array_vec_len result + TAG_LEN ≤ CERTIFICATE_LEN }
{
    let mut text = ArrayVec::new();
    text.push(CERTIFICATE);
    push_all(&mut text, &first.to_be_bytes());
    push_all(&mut text, &last.to_be_bytes());
    text
}

// The first byte of the receipt of a key of this tree.
fn receipt_tag(wide: bool) -> u8
    ensures value { result ≡ receipt_tag wide }
{
    if wide { WIDE_RECEIPT } else { RECEIPT }
}

/// The tag of the command of a get or a put.
pub fn kind_tag(put: bool) -> u8
    ensures value { result ≡ kind_tag put }
{
    if put { PUT } else { GET }
}

/// Appends a key of a tree, in as many bytes as its keys have: 8, or 16.
pub fn push_key<const CAP: usize>(items: &mut ArrayVec<u8, CAP>, wide: bool, key: u128)
    requires room { array_vec_len items.old + 16 ≤ CAP }
    ensures text { items.new.items ≡ items.old.items ++ to_be_bytes (word_width wide) key }
    ensures len { array_vec_len items.new ≤ array_vec_len items.old + 16 }
{
    let bytes = key.to_be_bytes();
    if wide {
        push_all(items, &bytes);
    } else {
        push_all(items, &bytes[8..]);
    }
}

// Appends bytes that there is room for.
fn push_all<const CAP: usize>(items: &mut ArrayVec<u8, CAP>, bytes: &[u8])
    requires room { array_vec_len items.old + length bytes.now ≤ CAP }
    ensures text { items.new.items ≡ items.old.items ++ bytes.now }
    ensures len { array_vec_len items.new ≡ array_vec_len items.old + length bytes.now }
{
    match items.try_extend_from_slice(bytes) {
        Ok(()) => {}
        Err(_) => unreachable!(),
    }
}
