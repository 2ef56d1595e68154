//! A source, read to its end or to the first bad frame, and the logs joined.
ghost use Rattle.std.specs.Prelude.{◌≡◌, ◌≢◌, ℕ, ◌+◌, ◌^◌, ◌<◌, ◌≤◌, map, true, false, Some, IfOk, IfSome, OnOk, Ok, Err, vec_len};
ghost use Rattle.fv_outside.specs.Failures.{FailsByReading};
ghost use Rattle.fv_outside.specs.Faults.{Rose};
ghost use Rattle.bundle_frames.specs.Extent.{reading_end};
ghost use Rattle.bundle_frames.specs.Reading.{header_then};
ghost use Rattle.lamport_clocks.specs.Header.{IsHeader};
ghost use Rattle.bundle_report.specs.Logs.{empty_logs, appended, logs_then};
ghost use Rattle.bundle_report.specs.Logged.{logged_of};
ghost use Rattle.check_core.specs.Intake.{logs_in, logged};
ghost use Rattle.fv_outside.specs.Consumed.{EndsBehind, StopsAtEnd, TookAtMost, TookJust, TookToEnd};

use crate::intake::Intake;
use base_words::Memory;
use bundle_frames::{BundleReader, Next};
use fv_outside::{Failure, Source};
use lamport_clocks::Header;
use std::alloc::{AllocError, Global};

/// Reads a bundle from a source, to its end or to the first bad frame, and no more than so many bytes.
pub fn read_bundle<S: Source>(alloc: Global, limit: u64, source: &mut S) -> Result<Intake, Failure>
    requires limit { limit ≤ 2 ^ 40 }
    ensures bundle { IfOk result (λ intake. IfSome (S.left source.old) (λ bytes. logged intake ≡ logged_of bytes)) }
    ensures failure { FailsByReading result }
    ensures fault { result ≡ Err Failure.ReadFault → Rose (S.faults source.old) (S.faults source.new) }
    ensures limit { result ≡ Err Failure.InputLimit → TookJust (limit + 1) (S.left source.old) (S.left source.new) }
    ensures within { result ≢ Err Failure.InputLimit → TookAtMost limit (S.left source.old) (S.left source.new) }
    ensures reached { OnOk result (TookToEnd reading_end (S.left source.old) (S.left source.new)) }
    ensures stops { StopsAtEnd reading_end (S.left source.old) (S.left source.new) }
    ensures beyond { result ≡ Err Failure.InputLimit → EndsBehind reading_end limit (S.left source.old) }
    ensures never_falls { S.faults source.old ≤ S.faults source.new }
{
    let mut reader = BundleReader::new(alloc, limit)?;
    let mut intake = Intake {
        header: None,
        logs: Vec::new(alloc),
        bad: None,
    };
    'frames: loop {
        let next = reader.next(source)?;
        let more = join(alloc, &mut intake, next, reader.body())?;
        if !more {
            break;
        }
    }
    intake.bad = reader.bad();
    Ok(intake)
}

// Joins what came next, a header or a frame with this body. It answers whether there may be more.
fn join(alloc: Global, intake: &mut Intake, next: Next, body: &[u8]) -> Result<bool, Memory>
    requires head { (header : Header) → next ≡ Next.Head header → IsHeader header }
    requires frame { (verifier : ℕ) → next ≡ Next.Frame verifier → verifier < vec_len intake.old.logs }
    ensures header { OnOk result (intake.new.header ≡ header_then (Ok next) intake.old.header) }
    ensures logs { OnOk result (logs_in intake.new ≡ logs_then next body.now (logs_in intake.old)) }
    ensures more { result ≡ Ok true → next ≢ Next.End }
    ensures end { result ≡ Ok false → next ≡ Next.End }
{
    match next {
        Next::Head(header) => *intake = begun(alloc, header)?,
        Next::Frame(verifier) => append(&mut intake.logs, verifier, body)?,
        Next::End => return Ok(false),
    }
    Ok(true)
}

// What is read of a bundle once its header is.
fn begun(alloc: Global, header: Header) -> Result<Intake, Memory>
    requires header { IsHeader header }
    ensures header { IfOk result (λ intake. intake.header ≡ Some header) }
    ensures logs { IfOk result (λ intake. logs_in intake ≡ empty_logs header.verifiers) }
{
    Ok(Intake {
        header: Some(header),
        logs: new_logs(alloc, header.verifiers)?,
        bad: None,
    })
}

// So many logs of no bytes.
fn new_logs(alloc: Global, count: u16) -> Result<Vec<Vec<u8>>, AllocError>
    ensures len { IfOk result (λ logs. vec_len logs ≡ count) }
    ensures empty { IfOk result (λ logs. map (λ log. log.items) logs.items ≡ empty_logs count) }
{
    let mut logs = Vec::new(alloc);
    for _ in 0..count {
        logs.push(Vec::new(alloc))?;
    }
    Ok(logs)
}

// Appends bytes to the log of a verifier.
fn append(logs: &mut Vec<Vec<u8>>, verifier: u16, bytes: &[u8]) -> Result<(), AllocError>
    requires verifier { verifier < vec_len logs.old }
    ensures len { vec_len logs.new ≡ vec_len logs.old }
    ensures appended { OnOk result (map (λ log. log.items) logs.new.items ≡ appended verifier bytes.now (map (λ log. log.items) logs.old.items)) }
{
    logs[verifier as usize].extend_from_slice(bytes)
}
