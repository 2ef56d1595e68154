//! All bytes of a source, read within a limit.
ghost use Rattle.std.specs.Prelude.{◌≡◌, ◌≢◌, ◌+◌, ◌^◌, ◌<◌, ◌≤◌, length, vec_len, IfOk, OnOk, Err};
ghost use Rattle.std.specs.Io.KnownBytes.{Consumes, IsAtEnd};
ghost use Rattle.fv_outside.specs.Consumed.{ReadsOn, TookAtMost, TookJust};
ghost use Rattle.fv_outside.specs.Failures.{FailsByReading};
ghost use Rattle.fv_outside.specs.Faults.{Counts, Rose};

use fv_outside::{Failed, Failure, Source};
use std::alloc::{AllocError, Global};

// The most bytes that are read at a time.
const PIECE_BYTES: usize = 65_536;

/// Reads a source to its end, and no more than so many bytes.
pub fn read_all<S: Source>(alloc: Global, limit: u64, source: &mut S) -> Result<Vec<u8>, Failure>
    requires limit { limit ≤ 2 ^ 40 }
    ensures bytes { IfOk result (λ bytes. Consumes (S.left source.old) (S.left source.new) bytes.items) }
    ensures end { OnOk result (IsAtEnd (S.left source.new)) }
    ensures failure { FailsByReading result }
    ensures fault { result ≡ Err Failure.ReadFault → Rose (S.faults source.old) (S.faults source.new) }
    ensures limit { result ≡ Err Failure.InputLimit → TookJust (limit + 1) (S.left source.old) (S.left source.new) }
    ensures within { result ≢ Err Failure.InputLimit → TookAtMost limit (S.left source.old) (S.left source.new) }
    ensures never_falls { S.faults source.old ≤ S.faults source.new }
{
    let mut room = new_room(alloc)?;
    let mut bytes = Vec::new(alloc);
    'pieces: loop {
        let taken = bytes.len() as u64;
        let want = wanted(limit, taken);
        let count = match read_some(source, &mut room, want) {
            Ok(count) => count,
            Err(_) => return Err(Failure::ReadFault),
        };
        if count as u64 > limit - taken {
            return Err(Failure::InputLimit);
        }
        if count == 0 {
            break;
        }
        bytes.extend_from_slice(&room[..count])?;
    }
    Ok(bytes)
}

// Room for a piece.
fn new_room(alloc: Global) -> Result<Vec<u8>, AllocError>
    ensures len { IfOk result (λ room. vec_len room ≡ PIECE_BYTES) }
{
    vec![in alloc; 0u8; PIECE_BYTES]
}

// How many bytes are asked for: no more than the limit leaves, and once it is reached one more, so that it doesn't matter
// how reads are cut.
fn wanted(limit: u64, taken: u64) -> usize
    requires within { taken ≤ limit }
    ensures some { 0 < result }
    ensures room { result ≤ PIECE_BYTES }
    ensures limit { taken + result ≤ limit + 1 }
{
    let left = (limit - taken).min(PIECE_BYTES as u64);
    (left as usize).max(1)
}

// Reads into the front of the room.
fn read_some<S: Source>(source: &mut S, room: &mut [u8], want: usize) -> Result<usize, Failed>
    requires some { 0 < want }
    requires within { want ≤ length room.old }
    ensures bound { IfOk result (λ count. count ≤ want) }
    ensures bytes { ReadsOn (S.left source.old) (S.left source.new) result room.new }
    ensures length { length room.new ≡ length room.old }
    ensures counts { Counts (S.faults source.old) (S.faults source.new) result }
{
    source.read(&mut room[..want])
}
