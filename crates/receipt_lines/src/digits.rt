//! Receipts and certificates as digits.
ghost use Rattle.std.specs.Prelude.{◌≡◌, ◌<◌, length, None, Some, IfSome};
ghost use Rattle.std.specs.List.{list_all};
ghost use Rattle.script_text.specs.Words.{is_lower_digit};
ghost use Rattle.receipt_lines.specs.Evidence.{bytes_in, receipt_in, certificate_in};

use crate::ranges::tags_have_their_length;
use arrayvec::ArrayVec;
use base_words::a_number_of_32_bits_is_below;
use receipts::{Certificate, LONGEST_RECEIPT, Receipt, read_certificate, read_receipt};

/// The receipt with its tag that these digits spell.
pub(crate) fn receipt_in(digits: &[u8]) -> Option<Receipt>
    ensures value { result ≡ receipt_in digits.now }
{
    let bytes = bytes_in(digits)?;
    let receipt = read_receipt(bytes.as_slice())?;
    tags_have_their_length(&receipt.tag);
    Some(receipt)
}

/// The certificate with its tag that these digits spell.
pub(crate) fn certificate_in(digits: &[u8]) -> Option<Certificate>
    ensures value { result ≡ certificate_in digits.now }
{
    let bytes = bytes_in(digits)?;
    let certificate = read_certificate(bytes.as_slice())?;
    a_number_of_32_bits_is_below(certificate.first);
    a_number_of_32_bits_is_below(certificate.last);
    tags_have_their_length(&certificate.tag);
    Some(certificate)
}

// The bytes that digits in lower case spell, if they are no more than a receipt may have.
fn bytes_in(digits: &[u8]) -> Option<ArrayVec<u8, LONGEST_RECEIPT>>
    ensures found { IfSome result (λ bytes. bytes_in digits.now ≡ Some bytes.items) }
    ensures missing { result ≡ None → IfSome (bytes_in digits.now) (λ bytes. LONGEST_RECEIPT < length bytes) }
{
    if digits.len() > 2 * LONGEST_RECEIPT {
        return None;
    }
    if !are_lower_digits(digits) {
        return None;
    }
    let mut bytes = ArrayVec::from([0; LONGEST_RECEIPT]);
    bytes.truncate(digits.len() / 2);
    match hex::decode_to_slice(digits, bytes.as_mut_slice()) {
        Ok(()) => Some(bytes),
        Err(_) => None,
    }
}

// Whether all of these are hexadecimal digits in lower case.
fn are_lower_digits(digits: &[u8]) -> bool
    ensures value { result ≡ list_all is_lower_digit digits.now }
{
    digits.iter().all(|digit| is_lower_digit(*digit))
}

// Whether this is a hexadecimal digit in lower case.
fn is_lower_digit(digit: u8) -> bool
    ensures value { result ≡ is_lower_digit digit }
{
    matches!(digit, b'0'..=b'9' | b'a'..=b'f')
}
