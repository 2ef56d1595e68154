//! Reading on in the one header or frame that a buffer holds the front of.
ghost use Rattle.std.specs.Prelude.{◌≡◌, ◌-◌, ◌≤◌, min, ◌++◌, length, take};
ghost use Rattle.std.specs.Vec.{vec_capacity};
ghost use Rattle.bundle_frames.specs.Finds.{FindsIn};
ghost use Rattle.bundle_frames.specs.Unfinished.{IsUnfinished};

use crate::fields::{
    HEAD_BYTES, LONGEST_BODY, MAGIC_BYTES, head_at, header_at, header_bytes, is_head_in_range,
    version_at,
};
use crate::found::{Fed, Found};
use lamport_clocks::Header;

/// The most bytes of a header or a frame.
pub const MOST_BYTES: usize = HEAD_BYTES + LONGEST_BODY;

// Reads on in the header, where there is none yet, and else in a frame.
pub fn read_on(buffer: &mut Vec<u8>, header: Option<Header>, offset: u64, piece: &[u8]) -> Fed
    requires room { MOST_BYTES ≤ vec_capacity buffer.old }
    requires unfinished { IsUnfinished header buffer.old.items }
    ensures finds { FindsIn header offset buffer.old.items piece.now result.taken result.found }
    ensures taken { result.taken ≤ length piece.now }
    ensures bytes { buffer.new.items ≡ buffer.old.items ++ take result.taken piece.now }
    ensures capacity { MOST_BYTES ≤ vec_capacity buffer.new }
{
    match header {
        None => read_header(buffer, offset, piece),
        Some(header) => read_frame(buffer, &header, offset, piece),
    }
}

// Appends bytes of the piece until there are so many, or the piece ends, and answers how many.
fn fill(buffer: &mut Vec<u8>, size: usize, piece: &[u8]) -> usize
    requires room { size ≤ vec_capacity buffer.old }
    ensures count { result ≡ min (size - length buffer.old.items) (length piece.now) }
    ensures bytes { buffer.new.items ≡ buffer.old.items ++ take result piece.now }
    ensures capacity { vec_capacity buffer.old ≤ vec_capacity buffer.new }
{
    let count = size.saturating_sub(buffer.len()).min(piece.len());
    if count == 0 {
        return 0;
    }
    match buffer.extend_from_slice(&piece[..count]) {
        Ok(()) => count,
        Err(_) => unreachable!(),
    }
}

// Reads on in a header. Its first bytes tell how many it has.
fn read_header(buffer: &mut Vec<u8>, offset: u64, piece: &[u8]) -> Fed
    requires room { MOST_BYTES ≤ vec_capacity buffer.old }
    requires unfinished { IsUnfinished None buffer.old.items }
    ensures finds { FindsIn None offset buffer.old.items piece.now result.taken result.found }
    ensures taken { result.taken ≤ length piece.now }
    ensures bytes { buffer.new.items ≡ buffer.old.items ++ take result.taken piece.now }
    ensures capacity { MOST_BYTES ≤ vec_capacity buffer.new }
{
    let magic = fill(buffer, MAGIC_BYTES, piece);
    if buffer.len() < MAGIC_BYTES {
        return Fed {
            taken: magic,
            found: Found::Nothing,
        };
    }
    let size = header_bytes(version_at(buffer));
    let taken = magic + fill(buffer, size, &piece[magic..]);
    if buffer.len() < size {
        return Fed {
            taken,
            found: Found::Nothing,
        };
    }
    match header_at(buffer) {
        None => Fed {
            taken,
            found: Found::Bad(offset),
        },
        Some(header) => Fed {
            taken,
            found: Found::Head(header),
        },
    }
}

// Reads on in a frame.
fn read_frame(buffer: &mut Vec<u8>, header: &Header, offset: u64, piece: &[u8]) -> Fed
    requires room { MOST_BYTES ≤ vec_capacity buffer.old }
    requires unfinished { IsUnfinished (Some header.now) buffer.old.items }
    ensures finds { FindsIn (Some header.now) offset buffer.old.items piece.now result.taken
        result.found }
    ensures taken { result.taken ≤ length piece.now }
    ensures bytes { buffer.new.items ≡ buffer.old.items ++ take result.taken piece.now }
    ensures capacity { MOST_BYTES ≤ vec_capacity buffer.new }
{
    let head = fill(buffer, HEAD_BYTES, piece);
    if buffer.len() < HEAD_BYTES {
        return Fed {
            taken: head,
            found: Found::Nothing,
        };
    }
    let (verifier, length) = head_at(buffer);
    if !is_head_in_range(verifier, header.verifiers, length) {
        return Fed {
            taken: head,
            found: Found::Bad(offset),
        };
    }
    let taken = head + fill(buffer, HEAD_BYTES + length, &piece[head..]);
    if buffer.len() < HEAD_BYTES + length {
        return Fed {
            taken,
            found: Found::Nothing,
        };
    }
    Fed {
        taken,
        found: Found::Frame(verifier),
    }
}
