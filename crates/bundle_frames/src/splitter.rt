//! A bundle that comes in pieces, split into its header and its frames.
ghost use Rattle.std.specs.Prelude.{◌≡◌, ℕ, ◌+◌, ◌^◌, ◌<◌, ◌≤◌, false, List, [], ◌++◌, length, take, drop, IfOk, if◌then◌else◌, IsTrue, IsSomeAnd};
ghost use Rattle.std.specs.Vec.{vec_capacity};

use crate::fields::{HEAD_BYTES, header_bytes};
use crate::found::{Fed, Found};
use crate::frame_buffer::FrameBuffer;
use crate::parts::{MOST_BYTES, read_on};
use base_words::Memory;
use lamport_clocks::Header;
use std::alloc::Global;
use std::marker::Model;

/// Reads a bundle that comes in pieces, however it is cut. Contracts see it as a `Progress`.
///
/// It holds the bytes of one header or frame, in a buffer that is made once.
#[derive(Drop)]
pub struct Splitter {
    buffer: Vec<u8>,
    // The buffer is a whole frame, whose body is lent until more is read.
    is_whole: bool,
    header: Option<Header>,
    offset: u64,
}

impl Model for Splitter {
    ghost use Rattle.bundle_frames.specs.Progress.{Progress};

    ghost Value = { Progress };

    ghost use Rattle.bundle_frames.specs.Splitter.{progress_of, IsReady};

    ghost view = { progress_of };

    ghost invariant = { IsReady };
}

impl Splitter {
    ghost use Rattle.lamport_clocks.specs.declared.header.Header.{Header};
    ghost use Rattle.lamport_clocks.specs.Header.{IsHeader};
    ghost use Rattle.bundle_frames.specs.Bundle.{IsFrame};
    ghost use Rattle.bundle_frames.specs.Progress.{start, start_behind, position, rest_of, is_bad, is_boundary};
    ghost use Rattle.bundle_frames.specs.Unfinished.{IsUnfinished};
    ghost use Rattle.bundle_frames.specs.Finds.{Finds, progress_after, found_then};

    /// A splitter that has read nothing. It makes the one buffer, for the longest frame.
    pub fn new(alloc: Global) -> Result<Splitter, Memory>
        ensures starts { IfOk result (λ s. s ≡ start) }
    {
        let buffer = Vec::with_capacity(alloc, MOST_BYTES)?;
        Ok(Splitter {
            buffer,
            is_whole: false,
            header: None,
            offset: 0,
        })
    }

    /// A splitter that goes on behind so many bytes of a bundle with this header, which were a header and whole frames. The
    /// offset counts among the bytes that it took.
    pub fn resume(alloc: Global, header: &Header, offset: u64) -> Result<Splitter, Memory>
        ensures starts { IfOk result (λ s. s ≡ start_behind header.now offset) }
    {
        let buffer = Vec::with_capacity(alloc, MOST_BYTES)?;
        Ok(Splitter {
            buffer,
            is_whole: false,
            header: Some(*header),
            offset,
        })
    }

    /// Reads on in `piece`, up to the first header or frame that is whole or bad, and answers how many
    /// bytes it took and what it found.
    ///
    /// After `Bad` it takes no more and answers the same for good.
    pub fn feed(&mut self, piece: &[u8]) -> Fed
        requires fits { position self.old + length piece.now < 2 ^ 63 }
        ensures taken { result.taken ≤ length piece.now }
        ensures finds { Finds self.old piece.now result }
        ensures after { self.new ≡ progress_after self.old (take result.taken piece.now) result.found }
        ensures position { position self.new ≡ position self.old + result.taken }

        // What is found is in its ranges.
        ensures header { (header : Header) → result.found ≡ Found.Head header → IsHeader header }
        ensures frame { (verifier : ℕ) → result.found ≡ Found.Frame verifier
            → IsSomeAnd self.old.header (λ header.
            IsFrame header.verifiers (record { verifier = verifier; body = self.new.body })) }

        // Whatever follows the piece, what is found and the rest behind it are what was left.
        ensures rest { (more : List ℕ) → rest_of self.old (piece.now ++ more)
            ≡ found_then result.found self.new.body
            (rest_of self.new (drop result.taken piece.now ++ more)) }

        // Nothing is read behind what is bad: whatever follows, the bundle ends there.
        ensures last { (at : ℕ) → result.found ≡ Found.Bad at → (more : List ℕ)
            → rest_of self.new more
            ≡ record { header = self.old.header; frames = []; bad = Some at } }

        // What is bad stays bad, and nothing is taken behind it.
        ensures stays { (at : ℕ) → result.found ≡ Found.Bad at
            → IsTrue (is_bad self.new.header self.new.held) }
        ensures bad { IsTrue (is_bad self.old.header self.old.held)
            → (result.taken ≡ 0) × (result.found ≡ Found.Bad self.old.offset) }
    {
        self.advance(piece)
    }

    // Reads on, up to the first header or frame that is whole or bad.
    fn advance(&mut self, piece: &[u8]) -> Fed
        requires fits { position self.old + length piece.now < 2 ^ 63 }
        ensures taken { result.taken ≤ length piece.now }
        ensures finds { Finds self.old piece.now result }
        ensures after { self.new ≡ progress_after self.old (take result.taken piece.now) result.found }
        ensures start { self.old.header ≡ None → self.old.offset ≡ 0 }
    {
        forget(&mut self.buffer, &mut self.is_whole);
        let fed = read_on(&mut self.buffer, self.header, self.offset, piece);
        match fed.found {
            Found::Nothing => {}
            Found::Bad(_) => {}
            Found::Head(header) => {
                self.buffer.clear();
                self.header = Some(header);
                self.offset = header_bytes(header.version) as u64;
            }
            Found::Frame(_) => {
                self.is_whole = true;
                self.offset += self.buffer.len() as u64;
            }
        }
        fed
    }

    /// The body of the frame that was found last, until more is read; else nothing.
    pub fn body(&self) -> &[u8]
        ensures value { result.now ≡ self.now.body }
    {
        if self.is_whole {
            &self.buffer[HEAD_BYTES..]
        } else {
            &[]
        }
    }

    /// Hands the frame that was found last over to a buffer, and takes that buffer's bytes for its own: none
    /// are copied. Where none was found, the buffer holds nothing then.
    pub fn hand_over(&mut self, frame: &mut FrameBuffer)
        ensures body { frame.new ≡ self.old.body }
        ensures rest { self.new ≡ record self.old { body = [] } }
    {
        if self.is_whole {
            frame.take(&mut self.buffer);
            self.is_whole = false;
        } else {
            frame.clear();
        }
    }

    /// Where the bundle is cut or bad, if it ends here: the offset of the header or frame that is not
    /// whole, or that is bad. None where it is whole.
    pub fn end(&self) -> Option<u64>
        ensures value { result
            ≡ (if is_boundary self.now.header self.now.held then None else Some self.now.offset) }
        ensures rest { rest_of self.now []
            ≡ record { header = self.now.header; frames = []; bad = result } }
    {
        self.cut()
    }

    // Where the bytes are cut.
    fn cut(&self) -> Option<u64>
        ensures value { result
            ≡ (if is_boundary self.now.header self.now.held then None else Some self.now.offset) }
        ensures unfinished { IsUnfinished self.now.header self.now.held }
        ensures start { self.now.header ≡ None → self.now.offset ≡ 0 }
    {
        if self.header.is_none() {
            return Some(self.offset);
        }
        if self.is_whole || self.buffer.is_empty() {
            return None;
        }
        Some(self.offset)
    }
}

// Lets a whole frame go.
fn forget(buffer: &mut Vec<u8>, is_whole: &mut bool)
    ensures whole { is_whole.new ≡ false }
    ensures bytes { buffer.new.items ≡ (if is_whole.old then [] else buffer.old.items) }
    ensures capacity { vec_capacity buffer.new ≡ vec_capacity buffer.old }
{
    if *is_whole {
        buffer.clear();
        *is_whole = false;
    }
}
