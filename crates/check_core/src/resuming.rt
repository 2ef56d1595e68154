//! Going on from a seal with the frames that follow it.
ghost use Rattle.std.specs.Prelude.{◌≡◌, ◌≢◌, ◌≤◌, ◌^◌, ℕ, List, true, false, length, take, map, vec_len, IfOk, IfErr, OnOk};
ghost use Rattle.fv_outside.specs.Counting.{Tells};
ghost use Rattle.fv_outside.specs.Faults.{Rose};
ghost use Rattle.seals.specs.Answer.{IsWhole};
ghost use Rattle.seals.specs.Kept.{kept_in, seal_in};
ghost use Rattle.record_hash.specs.Digests.{AreLanes};
ghost use Rattle.seals.specs.Seal.{tag_bytes, IsGoodSeal};
ghost use Rattle.resumed_runs.specs.Kept.{runs_from_kept};
ghost use Rattle.check_core.specs.Found.{unended_answer, GoesFrom, GoesFromAs};
ghost use Rattle.check_core.specs.Outcomes.{IsCheckStatus, check_status};
ghost use Rattle.check_core.specs.Resuming.{IsResumeStatus, IsUnreadKind, ResumesTo};
ghost use Rattle.check_core.specs.Unresumed.{is_refusal, IsStaleOr, IsTold};

use crate::checked::write_end;
use crate::going_on::go_on;
use crate::seal_reading::{FoundSeal, find_seal};
use crate::told::Told;
use crate::unresumed::Unresumed;
use base_words::Memory;
use bundle_frames::BundleReader;
use certified_epochs::{Certifier, FedRun};
use fv_outside::{Counter, Failure, Sink, Source};
use merkle_records::digests_have_32_bytes;
use operation_folds::NothingMade;
use record_hash::Digests;
use report_text::{BundleEnd, Status, write_last};
use resumed_runs::{
    seals_can_be_certified, seals_keep_what_was_read, what_is_kept_can_go_on,
    what_is_kept_has_stood,
};
use seals::{
    SealedState, bounds_say_more, seals_are_read_back, seals_keep_on, whole_seals_are_tagged,
};
use std::alloc::Global;
use std::thread::Threads;
use verifier_run::Run;

/// Reads a seal, and goes on from it with the frames that follow, as if the bundle had not been cut: it writes the lines of each epoch that is
/// certified then, and the last line. It reads no more than so many bytes, the seal's among them. A seal is refused where its text is none, where
/// its tag is another, or where the counter has another number; the counter is read only where the tag holds.
pub fn resume<R: Threads + Sync, D: Digests + Sync, S: Source, O: Sink, C: Counter>(
    rt: &R,
    alloc: Global,
    d: &D,
    limit: u64,
    source: &mut S,
    out: &mut O,
    counter: &mut C,
) -> Status
    requires limit { limit ≤ 2 ^ 40 }
    ensures outcomes { IsResumeStatus result }

    // What is refused, what goes on, and what is written then; what was taken of the source, and the faults.
    ensures resumes { ResumesTo (D.functions d.now) limit result
        (record { left = S.left source.old; left_after = S.left source.new; faults = S.faults source.old; faults_after = S.faults source.new })
        (record { held = O.held out.old; held_after = O.held out.new; faults = O.faults out.old; faults_after = O.faults out.new })
        (record { number = C.number counter.old; number_after = C.number counter.new; faults = C.faults counter.old; faults_after = C.faults counter.new }) }
    ensures unread { IsUnreadKind result → counter.new ≡ counter.old }
    ensures unwritten { result ≡ Status.CounterFault → out.new ≡ out.old }
{
    digests_have_32_bytes(d);
    digests_are_sized(d);
    what_is_kept_has_stood();
    seals_keep_what_was_read();
    seals_are_read_back();
    seals_keep_on();
    match find_seal(alloc, d, limit, source) {
        Ok(found) => match is_current(&found.state, counter) {
            Ok(()) => resume_from(rt, alloc, d, limit, found, source, out),
            Err(unresumed) => refuse(&unresumed, limit, out),
        },
        Err(unresumed) => refuse(&unresumed, limit, out),
    }
}

// The tags of any digests have 32 bytes, and the lanes are eight words: the laws of their trait, handed on.
fn digests_are_sized<D: Digests>(d: &D)
    ensures tags { (text : List ℕ) → length ((D.functions d.now).tag text) ≡ tag_bytes }
    ensures lanes { (text : List ℕ) → AreLanes ((D.functions d.now).lanes text) }
{
    let _ = d;
}

// Whether the counter has the number of a seal.
fn is_current<C: Counter>(state: &SealedState, counter: &mut C) -> Result<(), Unresumed>
    ensures current { OnOk result (Tells (C.number counter.old) state.now.counter) }
    ensures stale { IfErr result (IsStaleOr state.now.counter (C.number counter.old) (C.faults counter.old) (C.faults counter.new)) }
    ensures number { C.number counter.new ≡ C.number counter.old }
{
    match counter.read() {
        Ok(device) if device == state.counter => Ok(()),
        Ok(device) => Err(Unresumed::Stale {
            sealed: state.counter,
            device,
        }),
        Err(_) => Err(Unresumed::CounterFault),
    }
}

// Where nothing goes on: a line says why, where the seal is refused.
fn refuse<O: Sink>(unresumed: &Unresumed, limit: u64, out: &mut O) -> Status
    ensures told { IsTold limit unresumed.now result
        (record { held = O.held out.old; held_after = O.held out.new; faults = O.faults out.old; faults_after = O.faults out.new }) }
    ensures unwritten { is_refusal unresumed.now ≡ false → out.new ≡ out.old }
{
    let status = unresumed.status(limit);
    if !unresumed.is_refusal() {
        return status;
    }
    match write_last(&status, out) {
        Ok(()) => status,
        Err(_) => Status::WriteFault,
    }
}

// Goes on from a seal, and writes the last line. A source that failed behind what was read is asked again.
fn resume_from<R: Threads + Sync, D: Digests + Sync, S: Source, O: Sink>(
    rt: &R,
    alloc: Global,
    d: &D,
    limit: u64,
    found: FoundSeal,
    source: &mut S,
    out: &mut O,
) -> Status
    requires limit { limit ≤ 2 ^ 40 }
    requires whole { IsWhole (D.functions d.now) (take found.until found.buffer.items) found.state found.count }
    requires room { 65536 ≤ vec_len found.buffer }
    requires until { found.until ≤ vec_len found.buffer }
    requires within { found.until ≤ limit }
    ensures outcomes { IsCheckStatus result }
    ensures from { GoesFrom (D.functions d.now) limit found result
        (record { left = S.left source.old; left_after = S.left source.new; faults = S.faults source.old; faults_after = S.faults source.new })
        (record { held = O.held out.old; held_after = O.held out.new; faults = O.faults out.old; faults_after = O.faults out.new }) }
{
    seals_keep_what_was_read();
    match go_on_from(rt, alloc, d, limit, found, source, out) {
        Ok(end) => match write_end(&end, out) {
            Ok(status) => status,
            Err(_) => Status::WriteFault,
        },
        Err(failure) => Status::of_failure(failure, limit),
    }
}

// Goes on from a seal, and writes all but the last line.
fn go_on_from<R: Threads + Sync, D: Digests + Sync, S: Source, O: Sink>(
    rt: &R,
    alloc: Global,
    d: &D,
    limit: u64,
    found: FoundSeal,
    source: &mut S,
    out: &mut O,
) -> Result<BundleEnd, Failure>
    requires limit { limit ≤ 2 ^ 40 }
    requires whole { IsWhole (D.functions d.now) (take found.until found.buffer.items) found.state found.count }
    requires room { 65536 ≤ vec_len found.buffer }
    requires until { found.until ≤ vec_len found.buffer }
    requires within { found.until ≤ limit }
    ensures from { GoesFromAs (unended_answer (D.functions d.now)) (D.functions d.now) limit found (check_status limit result)
        (record { left = S.left source.old; left_after = S.left source.new; faults = S.faults source.old; faults_after = S.faults source.new })
        (record { held = O.held out.old; held_after = O.held out.new; faults = O.faults out.old; faults_after = O.faults out.new }) }
    ensures vault { result ≢ Err Failure.VaultFault }
    ensures never_falls { O.faults out.old ≤ O.faults out.new }
{
    bounds_say_more();
    seals_can_be_certified();
    seals_keep_what_was_read();
    is_good(d, &found.state, found.count, &found.buffer[..found.until]);
    let FoundSeal {
        state,
        count,
        buffer,
        until,
    } = found;
    let mut runs = resumed_runs(alloc, &state)?;
    let mut certifier = Certifier::resume(alloc, state.certified);
    let most = limit - count as u64 + state.taken;
    let mut reader = BundleReader::resume(
        alloc,
        &state.header,
        state.taken,
        most,
        buffer,
        count,
        until,
    )?;
    let told = Told::Lines { receipts: false };
    let mut nothing = NothingMade;
    go_on(
        rt,
        alloc,
        d,
        &state.header,
        &mut reader,
        source,
        &mut runs,
        &mut certifier,
        &told,
        &mut nothing,
        out,
    )
}

// What bytes keep that begin with a seal whose tag holds is within the bounds of a seal.
fn is_good<D: Digests>(d: &D, state: &SealedState, count: usize, bytes: &[u8])
    requires whole { IsWhole (D.functions d.now) bytes.now state.now count }
    ensures good { IsGoodSeal (seal_in state.now) }
{
    whole_seals_are_tagged();
    let _ = d;
    let _ = state;
    let _ = count;
    let _ = bytes;
}

// The run of each verifier that goes on from what was kept.
fn resumed_runs(alloc: Global, state: &SealedState) -> Result<Vec<FedRun>, Memory>
    requires good { IsGoodSeal (seal_in state.now) }
    ensures runs { IfOk result (λ runs. map (λ fed. fed.run) runs.items ≡ runs_from_kept state.now.header 0 (map kept_in state.now.runs.items)) }
    ensures len { IfOk result (λ runs. vec_len runs ≡ state.now.header.verifiers) }
{
    what_is_kept_can_go_on();
    let mut runs = Vec::new(alloc);
    for (number, kept) in state.runs.iter().enumerate() {
        let run = Run::of_state(alloc, number as u16, &state.header, kept)?;
        runs.push(FedRun {
            run,
            is_starved: false,
        })?;
    }
    Ok(runs)
}
