//! The seal that a source begins with.
ghost use Rattle.std.specs.Prelude.{◌≡◌, ◌≢◌, ◌⊎◌, ◌≤◌, ◌<◌, ◌+◌, ◌*◌, ◌^◌, ◌++◌, ℕ, true, false, List, Option, length, take, min, vec_len, Ok, Err, IfOk, IfErr, IfSome, OnErr, OnOk};
ghost use Rattle.std.specs.Io.KnownBytes.{Consumes, IsAtEnd};
ghost use Rattle.fv_outside.specs.Consumed.{TookAtMost, TookJust, most_behind};
ghost use Rattle.fv_outside.specs.Faults.{Counts, Rose};
ghost use Rattle.record_text.specs.declared.reader.TextFault.TheVariants.{Truncated};
ghost use Rattle.seals.specs.declared.state.SealedState.{SealedState};
ghost use Rattle.seals.specs.Seal.{seal_at};
ghost use Rattle.seals.specs.Answer.{IsWhole, IsUntagged};
ghost use Rattle.check_core.specs.Resuming.{HasNoSeal, SpellsSeal};
ghost use Rattle.check_core.specs.Unresumed.{IsUnread};

use crate::unresumed::Unresumed;
use base_words::Memory;
use bundle_frames::PIECE_BYTES;
use fv_outside::{Failure, Source};
use record_hash::Digests;
use seals::{SealFront, SealedState, read_seal_front, seals_are_read_back, seals_keep_on};
use std::alloc::{AllocError, Global};

/// A seal that a source begins with, and what was read of the source: so many bytes at the front of a buffer, of which the seal has the
/// first so many.
#[derive(Drop)]
pub(crate) struct FoundSeal {
    pub state: SealedState,
    pub count: usize,
    pub buffer: Vec<u8>,
    pub until: usize,
}

/// Reads the seal that a source begins with, and no more than so many bytes. A buffer is filled, and then one twice as large, till its bytes
/// tell: so they are looked at no more than twice as often as there are bytes, and memory is taken for bytes that are there. Where the source
/// fails, they are looked at once more.
pub(crate) fn find_seal<D: Digests, S: Source>(
    alloc: Global,
    d: &D,
    limit: u64,
    source: &mut S,
) -> Result<FoundSeal, Unresumed>
    requires limit { limit ≤ 2 ^ 40 }

    // The seal, and what was read with it.
    ensures whole { IfOk result (λ found. IsWhole (D.functions d.now) (take found.until found.buffer.items) found.state found.count) }
    ensures bytes { IfOk result (λ found. Consumes (S.left source.old) (S.left source.new) (take found.until found.buffer.items)) }
    ensures room { IfOk result (λ found. 65536 ≤ vec_len found.buffer) }
    ensures until { IfOk result (λ found. found.until ≤ vec_len found.buffer) }
    ensures limited { IfOk result (λ found. found.until ≤ limit) }

    // Why there is none.
    ensures unread { IfErr result IsUnread }
    ensures bad_seal { result ≡ Err Unresumed.BadSeal → IfSome (S.left source.old) HasNoSeal }
    ensures not_tagged { result ≡ Err Unresumed.NotTagged → IfSome (S.left source.old) (IsUntagged (D.functions d.now)) }
    ensures limit { result ≡ Err (Unresumed.Failed Failure.InputLimit) → TookJust (limit + 1) (S.left source.old) (S.left source.new) }
    ensures within { result ≢ Err (Unresumed.Failed Failure.InputLimit) → TookAtMost limit (S.left source.old) (S.left source.new) }
    ensures read_fault { result ≡ Err (Unresumed.Failed Failure.ReadFault) → Rose (S.faults source.old) (S.faults source.new) }
    ensures never_falls { S.faults source.old ≤ S.faults source.new }

    // Behind a seal no more is read than the rest of one read, and as many bytes as it has, whatever its tag. The limit is passed only
    // within it, and where a read fails within it there is none.
    ensures near { IfSome (S.left source.old) (λ bytes. (count : ℕ) → SpellsSeal count bytes
        → TookAtMost (count + (count + most_behind)) (S.left source.old) (S.left source.new)) }
    ensures short { (failure : Failure) → result ≡ Err (Unresumed.Failed failure) → failure ≢ Failure.Memory
        → IfSome (S.left source.old) (λ bytes. (count : ℕ) → SpellsSeal count bytes → TookAtMost count (S.left source.old) (S.left source.new)) }
    ensures beyond { result ≡ Err (Unresumed.Failed Failure.InputLimit)
        → IfSome (S.left source.old) (λ bytes. (count : ℕ) → SpellsSeal count bytes → limit < count) }
{
    seals_are_read_back();
    seals_keep_on();
    let mut buffer = new_buffer(alloc)?;
    let mut until = 0;
    'fills: loop {
        let most = wanted(limit, buffer.len());
        let (filled, is_failed) = fill(source, &mut buffer, most, until);
        until = filled;
        match read_seal_front(alloc, d, &buffer[..until]) {
            SealFront::Whole(state, count) => {
                return Ok(FoundSeal {
                    state,
                    count,
                    buffer,
                    until,
                });
            }
            SealFront::Open => {}
            SealFront::BadSeal => return Err(Unresumed::BadSeal),
            SealFront::NotTagged => return Err(Unresumed::NotTagged),
            SealFront::Memory => return Err(Unresumed::Failed(Failure::Memory)),
        }
        if is_failed {
            return Err(Unresumed::Failed(Failure::ReadFault));
        }
        if until < most {
            return Err(Unresumed::BadSeal);
        }
        if most < buffer.len() {
            return Err(behind_limit(source));
        }
        double(&mut buffer)?;
    }
}

// A buffer for the first bytes.
fn new_buffer(alloc: Global) -> Result<Vec<u8>, AllocError>
    ensures len { IfOk result (λ buffer. vec_len buffer ≡ 65536) }
{
    vec![in alloc; 0u8; PIECE_BYTES]
}

// How many bytes of a buffer of this size are to be filled.
fn wanted(limit: u64, size: usize) -> usize
    ensures value { result ≡ min limit size }
{
    limit.min(size as u64) as usize
}

// Makes a buffer twice as large.
fn double(buffer: &mut Vec<u8>) -> Result<(), AllocError>
    requires small { vec_len buffer.old ≤ 2 ^ 40 }
    ensures len { OnOk result (vec_len buffer.new ≡ 2 * vec_len buffer.old) }
    ensures front { OnOk result (take (vec_len buffer.old) buffer.new.items ≡ buffer.old.items) }
{
    buffer.resize(2 * buffer.len(), 0)
}

// Reads on into a room of which so many bytes are filled, until as many are as are wanted or the source ends or fails. It says how many are
// filled then, and whether the source failed.
fn fill<S: Source>(source: &mut S, room: &mut [u8], most: usize, from: usize) -> (usize, bool)
    requires from { from ≤ most }
    requires most { most ≤ length room.old }
    ensures len { length room.new ≡ length room.old }
    ensures until { from ≤ result.0 }
    ensures within { result.0 ≤ most }

    // Whatever was read before of a source that had more.
    ensures bytes { (start : Option (List ℕ)) → Consumes start (S.left source.old) (take from room.old)
        → Consumes start (S.left source.new) (take result.0 room.new) }
    ensures end { result.0 < most → result.1 ≡ false → IsAtEnd (S.left source.new) }
    ensures failed { result.1 ≡ true → Rose (S.faults source.old) (S.faults source.new) }
    ensures never_falls { S.faults source.old ≤ S.faults source.new }
{
    let mut until = from;
    'reads: while until < most {
        match source.read(&mut room[until..most]) {
            Ok(0) => break,
            Ok(count) => until += count,
            Err(_) => return (until, true),
        }
    }
    (until, false)
}

// What comes where so many bytes were read as may be and they are too few for a seal: one byte more is too much, and none makes it a bad
// seal.
fn behind_limit<S: Source>(source: &mut S) -> Unresumed
    ensures kinds { (result ≡ Unresumed.BadSeal) ⊎ ((result ≡ Unresumed.Failed Failure.InputLimit) ⊎ (result ≡ Unresumed.Failed Failure.ReadFault)) }
    ensures bad_seal { result ≡ Unresumed.BadSeal → IsAtEnd (S.left source.new) }
    ensures at_end { result ≡ Unresumed.BadSeal → TookAtMost 0 (S.left source.old) (S.left source.new) }
    ensures limit { result ≡ Unresumed.Failed Failure.InputLimit → TookJust 1 (S.left source.old) (S.left source.new) }
    ensures read_fault { result ≡ Unresumed.Failed Failure.ReadFault → Rose (S.faults source.old) (S.faults source.new) }
    ensures failed { result ≡ Unresumed.Failed Failure.ReadFault → TookAtMost 0 (S.left source.old) (S.left source.new) }
    ensures never_falls { S.faults source.old ≤ S.faults source.new }
{
    let mut room = [0u8; 1];
    match source.read(&mut room[..]) {
        Ok(0) => Unresumed::BadSeal,
        Ok(_) => Unresumed::Failed(Failure::InputLimit),
        Err(_) => Unresumed::Failed(Failure::ReadFault),
    }
}
