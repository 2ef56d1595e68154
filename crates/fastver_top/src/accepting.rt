//! A receipt and a certificate that are handed in: what is read, what they come to, and the one line that says so.
ghost use Rattle.std.specs.Prelude.{◌≡◌, ◌^◌, ◌≤◌, IfOk, OnOk, OnErr};
ghost use Rattle.fv_outside.specs.Faults.{Counts};
ghost use Rattle.fv_outside.specs.Written.{Grows, GrowsByFront};
ghost use Rattle.fastver_top.specs.Accepting.{accept_answer, accepted_line, acceptance_answer, acceptance_of, AnswersWhole, IsAcceptStatus, IsBeforeAnswer};

use crate::reading::read_all;
use fv_outside::{Failed, Sink, Source, write_all};
use receipt_lines::{Evidence, read_evidence};
use receipts::{Acceptance, accept};
use record_hash::Digests;
use record_text::Operation;
use report_text::{Status, write_last, write_operation};
use std::alloc::Global;

/// Reads a receipt and a certificate, in two lines of no more than so many bytes, and writes in one line whether the
/// receipt is accepted. Where a line is bad nothing is written.
pub fn accept_text<D: Digests, S: Source, O: Sink>(
    alloc: Global,
    d: &D,
    limit: u64,
    source: &mut S,
    out: &mut O,
) -> Status
    requires limit { limit ≤ 2 ^ 40 }
    ensures outcomes { IsAcceptStatus result }

    // What is written, the status, what was taken of the source, and the faults.
    ensures answers { AnswersWhole (accept_answer (D.functions d.now)) limit result
        (record { left = S.left source.old; left_after = S.left source.new; faults = S.faults source.old; faults_after = S.faults source.new })
        (record { held = O.held out.old; held_after = O.held out.new; faults = O.faults out.old; faults_after = O.faults out.new }) }

    // Where no receipt and certificate are read the sink is as before.
    ensures unwritten { IsBeforeAnswer result → out.new ≡ out.old }
{
    let bytes = match read_all(alloc, limit, source) {
        Ok(bytes) => bytes,
        Err(failure) => return Status::of_failure(failure, limit),
    };
    match answer(d, &bytes, out) {
        Ok(status) => status,
        Err(_) => Status::WriteFault,
    }
}

// Writes what is answered to all that was read.
fn answer<D: Digests, O: Sink>(d: &D, bytes: &[u8], out: &mut O) -> Result<Status, Failed>
    ensures status { IfOk result (λ status. status ≡ (accept_answer (D.functions d.now) bytes.now).status) }
    ensures whole { OnOk result (Grows (O.held out.old) (O.held out.new) (accept_answer (D.functions d.now) bytes.now).text) }
    ensures front { OnErr result (GrowsByFront (O.held out.old) (O.held out.new) (accept_answer (D.functions d.now) bytes.now).text) }
    ensures unwritten { IfOk result (λ status. IsBeforeAnswer status → out.new ≡ out.old) }
    ensures counts { Counts (O.faults out.old) (O.faults out.new) result }
{
    match read_evidence(bytes) {
        Ok(evidence) => {
            let acceptance = acceptance_of(d, &evidence);
            write_acceptance(&acceptance, out)?;
            Ok(status_of(&acceptance))
        }
        Err(bad) => Ok(Status::BadScript {
            line: bad.line,
            cause: bad.cause,
        }),
    }
}

// What a receipt and a certificate come to.
#[tactic(auto, using(crate::proofs::AcceptLemmas::answer_is))]
fn acceptance_of<D: Digests>(d: &D, evidence: &Evidence) -> Acceptance
    ensures value { result ≡ acceptance_of (D.functions d.now) evidence.now.receipt evidence.now.certificate }
{
    accept(d, &evidence.receipt, &evidence.certificate)
}

// Writes the line that says what they come to.
fn write_acceptance<O: Sink>(acceptance: &Acceptance, out: &mut O) -> Result<(), Failed>
    ensures whole { OnOk result (Grows (O.held out.old) (O.held out.new) (acceptance_answer acceptance.now).text) }
    ensures front { OnErr result (GrowsByFront (O.held out.old) (O.held out.new) (acceptance_answer acceptance.now).text) }
    ensures counts { Counts (O.faults out.old) (O.faults out.new) result }
{
    match acceptance {
        Acceptance::Accepted(operation) => write_accepted(operation, out),
        Acceptance::NotTagged => write_last(&Status::NotTagged, out),
        Acceptance::NotCertified => write_last(&Status::NotCertified, out),
    }
}

// Writes the line of a receipt that is accepted.
fn write_accepted<O: Sink>(operation: &Operation, out: &mut O) -> Result<(), Failed>
    ensures whole { OnOk result (Grows (O.held out.old) (O.held out.new) (accepted_line operation.now)) }
    ensures front { OnErr result (GrowsByFront (O.held out.old) (O.held out.new) (accepted_line operation.now)) }
    ensures counts { Counts (O.faults out.old) (O.faults out.new) result }
{
    write_all(out, b"accepted ")?;
    write_operation(&operation.by_ref(), out)
}

// The status of what they come to.
fn status_of(acceptance: &Acceptance) -> Status
    ensures value { result ≡ (acceptance_answer acceptance.now).status }
{
    match acceptance {
        Acceptance::Accepted(_) => Status::Done { epochs: 0 },
        Acceptance::NotTagged => Status::NotTagged,
        Acceptance::NotCertified => Status::NotCertified,
    }
}
