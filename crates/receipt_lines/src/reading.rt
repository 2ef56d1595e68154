//! Reads a receipt and a certificate from two lines.
ghost use Rattle.std.specs.Prelude.{◌≡◌, Result, codes};
ghost use Rattle.std.specs.Option.{option_map};
ghost use Rattle.receipt_lines.specs.Evidence.{at_line, certificate_in, evidence_of, line_says, receipt_in};

use crate::digits::{certificate_in, receipt_in};
use crate::evidence::{BadLine, Evidence};
use crate::splitting::{second_word, split_line};
use receipts::{Certificate, Receipt};
use record_text::Cause;

/// The receipt and the certificate that a text has in its two lines, or the first line that is outside the grammar.
#[tactic(auto, unfolding(crate::specs::Evidence::lines_say))]
pub fn read_evidence(text: &[u8]) -> Result<Evidence, BadLine>
    ensures value { result ≡ evidence_of text.now }
{
    let (first, behind) = split_line(text);
    let receipt = at_line(1, read_receipt_line(first))?;
    let (second, behind) = split_line(behind);
    let certificate = at_line(2, read_certificate_line(second))?;
    let (third, _) = split_line(behind);
    if third.is_some() {
        return Err(BadLine {
            line: 3,
            cause: Cause::Shape,
        });
    }
    Ok(Evidence {
        receipt,
        certificate,
    })
}

// What a line with a receipt says, if there is a line.
#[tactic(auto, unfolding(crate::specs::Evidence::line_says))]
fn read_receipt_line(line: Option<&[u8]>) -> Result<Receipt, Cause>
    ensures value { result ≡ line_says (codes "receipt") receipt_in (option_map (λ line. line.now) line.entry) }
{
    let Some(line) = line else {
        return Err(Cause::Shape);
    };
    match second_word(line, b"receipt") {
        Some(digits) => receipt_in(digits).ok_or(Cause::Hex),
        None => Err(Cause::Shape),
    }
}

// What a line with a certificate says, if there is a line.
#[tactic(auto, unfolding(crate::specs::Evidence::line_says))]
fn read_certificate_line(line: Option<&[u8]>) -> Result<Certificate, Cause>
    ensures value { result ≡ line_says (codes "certificate") certificate_in (option_map (λ line. line.now) line.entry) }
{
    let Some(line) = line else {
        return Err(Cause::Shape);
    };
    match second_word(line, b"certificate") {
        Some(digits) => certificate_in(digits).ok_or(Cause::Hex),
        None => Err(Cause::Shape),
    }
}

// What was read of the line of this number, counted from 1.
fn at_line<T>(line: u64, read: Result<T, Cause>) -> Result<T, BadLine>
    ensures value { result ≡ at_line line read }
{
    match read {
        Ok(found) => Ok(found),
        Err(cause) => Err(BadLine { line, cause }),
    }
}
