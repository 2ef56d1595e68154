//! A bundle, read from a source piece by piece, header and frame by frame.
ghost use Rattle.std.specs.Prelude.{◌≡◌, ◌≢◌, ℕ, ◌+◌, ◌-◌, ◌^◌, ◌<◌, ◌≤◌, List, [], length, slice_range, true, false, take, IfOk, IfSome, IsSomeAnd, OnErr, Ok, Err, Some, None, vec_len};
ghost use Rattle.std.specs.Io.KnownBytes.{IsAtEnd};
ghost use Rattle.fv_outside.specs.Consumed.{ReadsOn};
ghost use Rattle.fv_outside.specs.Failures.{FailsBySource};
ghost use Rattle.fv_outside.specs.Faults.{Counts, Rose};

use crate::coming::Next;
use crate::found::Found;
use crate::frame_buffer::FrameBuffer;
use crate::splitter::Splitter;
use base_words::Memory;
use fv_outside::{Failed, Failure, Source};
use lamport_clocks::Header;
use std::alloc::{AllocError, Global};
use std::marker::Model;

/// The most bytes that are read at a time.
pub const PIECE_BYTES: usize = 65_536;

/// Reads a bundle from a source, header and frame by frame, and no more than so many bytes. Contracts
/// see it as a `Reading`.
///
/// It takes its memory when it is made, or is given the room that it reads into.
#[derive(Drop)]
pub struct BundleReader {
    splitter: Splitter,
    // The bytes from one place in the room up to another were read and are not split yet.
    room: Vec<u8>,
    from: usize,
    until: usize,
    taken: u64,
    limit: u64,
}

impl Model for BundleReader {
    ghost use Rattle.bundle_frames.specs.Reading.{Reading};

    ghost Value = { Reading };

    ghost use Rattle.bundle_frames.specs.Reader.{reading_of, IsReader};

    ghost view = { reading_of };

    ghost invariant = { IsReader };
}

impl BundleReader {
    ghost use Rattle.lamport_clocks.specs.declared.header.Header.{Header};
    ghost use Rattle.lamport_clocks.specs.Header.{IsHeader};
    ghost use Rattle.fv_outside.specs.Consumed.{most_behind};
    ghost use Rattle.bundle_frames.specs.Bundle.{IsFrame};
    ghost use Rattle.bundle_frames.specs.Extent.{IsDue};
    ghost use Rattle.bundle_frames.specs.Progress.{position, rest_of};
    ghost use Rattle.bundle_frames.specs.Reading.{opening_reading, resumed_reading, ahead, end_ahead, next_then, header_then, came_then, header_known, IsSpent, HasRead, ReadsAs};

    /// A reader that has read nothing, and reads no more than so many bytes.
    pub fn new(alloc: Global, limit: u64) -> Result<BundleReader, Memory>
        requires limit { limit ≤ 2 ^ 41 }
        ensures opening { IfOk result (λ reader. reader ≡ opening_reading limit) }
        ensures due { IfOk result (λ reader. IsDue reader.progress) }
    {
        let splitter = Splitter::new(alloc)?;
        let room = new_room(alloc)?;
        Ok(BundleReader {
            splitter,
            room,
            from: 0,
            until: 0,
            taken: 0,
            limit,
        })
    }

    /// A reader that goes on behind so many bytes of a bundle with this header, which were a header and whole frames. What follows
    /// them was read into this room already, from one place up to another, and is read from there. All count among the bytes that it
    /// took, and within the limit.
    pub fn resume(
        alloc: Global,
        header: &Header,
        offset: u64,
        limit: u64,
        room: Vec<u8>,
        from: usize,
        until: usize,
    ) -> Result<BundleReader, Memory>
        requires room { 65536 ≤ vec_len room }
        requires from { from ≤ until }
        requires until { until ≤ vec_len room }
        requires within { offset + (until - from) ≤ limit }
        requires limit { limit ≤ 2 ^ 41 }
        ensures resumed { IfOk result (λ reader. reader ≡ resumed_reading header.now offset limit (slice_range room.items from until)) }
        ensures due { IfOk result (λ reader. IsDue reader.progress) }
    {
        let splitter = Splitter::resume(alloc, header, offset)?;
        Ok(BundleReader {
            splitter,
            room,
            from,
            until,
            taken: offset + (until - from) as u64,
            limit,
        })
    }

    /// Reads on, up to the next header or frame that is whole, or to the end.
    pub fn next<S: Source>(&mut self, source: &mut S) -> Result<Next, Failure>
        requires due { IsDue self.old.progress }

        // What was read means what came and the rest behind it, whatever follows; and reading ends where it did.
        ensures means { ReadsAs (self.new.taken - self.old.taken) (S.left source.old)
            (ahead self.old) (λ more. next_then result self.new.progress.body (ahead self.new more)) }
        ensures extent { ReadsAs (self.new.taken - self.old.taken) (S.left source.old)
            (end_ahead self.old) (end_ahead self.new) }

        // What was taken of the source. Past the limit it is one byte, and that is not read.
        ensures took { result ≢ Err Failure.InputLimit
            → HasRead (self.new.taken - self.old.taken) (S.left source.old) (S.left source.new) }
        ensures limit { result ≡ Err Failure.InputLimit
            → HasRead (self.new.limit + 1 - self.old.taken) (S.left source.old) (S.left source.new) }
        ensures full { result ≡ Err Failure.InputLimit → self.new.taken ≡ self.new.limit }
        ensures rises { self.old.taken ≤ self.new.taken }
        ensures within { self.new.taken ≤ self.new.limit }
        ensures same_limit { self.new.limit ≡ self.old.limit }

        // A piece is read only while reading ends behind what was taken, and a byte past the limit too.
        ensures near { self.old.taken < self.new.taken
            → IfSome (S.left source.old) (λ bytes. self.new.taken ≤ end_ahead self.old bytes + most_behind) }
        ensures beyond { result ≡ Err Failure.InputLimit
            → IfSome (S.left source.old) (λ bytes. self.new.limit < end_ahead self.old bytes) }

        // What comes is in its ranges, and is further on.
        ensures header { self.new.progress.header ≡ header_then result self.old.progress.header }
        ensures head { (header : Header) → result ≡ Ok (Next.Head header)
            → (self.old.progress.header ≡ None) × IsHeader header }
        ensures frame { (verifier : ℕ) → result ≡ Ok (Next.Frame verifier)
            → IsSomeAnd self.old.progress.header (λ header.
            IsFrame header.verifiers (record { verifier = verifier; body = self.new.progress.body })) }
        ensures further { IfOk result (λ next. next ≢ Next.End
            → position self.old.progress < position self.new.progress) }
        ensures split { position self.new.progress ≤ self.new.taken }
        ensures onward { self.old.progress.offset ≤ self.new.progress.offset }
        ensures bytes { (verifier : ℕ) → result ≡ Ok (Next.Frame verifier)
            → self.old.progress.offset + length self.new.progress.body ≤ self.new.progress.offset }

        // At the end no byte that is left makes a difference, and reading ended within what was taken.
        ensures end { result ≡ Ok Next.End
            → IfSome (S.left source.new) (λ left. ahead self.new left ≡ ahead self.new []) }
        ensures reached { result ≡ Ok Next.End
            → IfSome (S.left source.new) (λ left. end_ahead self.new left ≤ self.new.taken) }
        ensures ended { result ≡ Ok Next.End → IsSpent self.new }

        // A reader that stopped has nothing more to give of what was read. It may go on after a fault.
        ensures stopped { OnErr result (IsSpent self.new) }
        ensures due { result ≢ Ok Next.End → IsDue self.new.progress }
        ensures failure { FailsBySource result }
        ensures fault { result ≡ Err Failure.ReadFault → Rose (S.faults source.old) (S.faults source.new) }
        ensures never_falls { S.faults source.old ≤ S.faults source.new }
    {
        'pieces: loop {
            let more = match self.fill(source) {
                Ok(more) => more,
                Err(stop) => return Err(stop),
            };
            if !more {
                return Ok(Next::End);
            }
            match self.split() {
                None => {}
                Some(next) => return Ok(next),
            }
        }
    }

    // Reads a piece, if all is split, and answers whether there are bytes to split.
    fn fill<S: Source>(&mut self, source: &mut S) -> Result<bool, Failure>
        requires due { IsDue self.old.progress }
        ensures progress { self.new.progress ≡ self.old.progress }
        ensures means { ReadsAs (self.new.taken - self.old.taken) (S.left source.old) (ahead self.old) (ahead self.new) }
        ensures extent { ReadsAs (self.new.taken - self.old.taken) (S.left source.old) (end_ahead self.old) (end_ahead self.new) }
        ensures took { result ≢ Err Failure.InputLimit
            → HasRead (self.new.taken - self.old.taken) (S.left source.old) (S.left source.new) }
        ensures limit { result ≡ Err Failure.InputLimit
            → HasRead (self.new.limit + 1 - self.old.taken) (S.left source.old) (S.left source.new) }
        ensures full { result ≡ Err Failure.InputLimit → self.new.taken ≡ self.new.limit }
        ensures rises { self.old.taken ≤ self.new.taken }
        ensures within { self.new.taken ≤ self.new.limit }
        ensures same_limit { self.new.limit ≡ self.old.limit }
        ensures near { self.old.taken < self.new.taken
            → IfSome (S.left source.old) (λ bytes. self.new.taken ≤ end_ahead self.old bytes + most_behind) }
        ensures beyond { result ≡ Err Failure.InputLimit
            → IfSome (S.left source.old) (λ bytes. self.new.limit < end_ahead self.old bytes) }
        ensures split { position self.new.progress ≤ self.new.taken }
        ensures some { result ≡ Ok true → 0 < length self.new.unread }
        ensures less { result ≡ Ok true → self.new.taken ≡ self.old.taken → self.new.unread ≡ self.old.unread }
        ensures end { result ≡ Ok false → IsAtEnd (S.left source.new) }
        ensures ended { result ≡ Ok false → self.new.unread ≡ [] }
        ensures stopped { OnErr result (self.new.unread ≡ []) }
        ensures failure { FailsBySource result }
        ensures fault { result ≡ Err Failure.ReadFault → Rose (S.faults source.old) (S.faults source.new) }
        ensures never_falls { S.faults source.old ≤ S.faults source.new }
    {
        if self.from < self.until {
            return Ok(true);
        }
        let want = wanted(self.limit, self.taken);
        let count = match read_some(source, &mut self.room, want) {
            Ok(count) => count,
            Err(_) => return Err(Failure::ReadFault),
        };
        let read = count as u64;
        if read > self.limit - self.taken {
            return Err(Failure::InputLimit);
        }
        self.from = 0;
        self.until = count;
        self.taken += read;
        Ok(count > 0)
    }

    // Splits what is unread, up to the next header or frame that is whole, or to what is bad.
    fn split(&mut self) -> Option<Next>
        requires due { IsDue self.old.progress }
        ensures taken { self.new.taken ≡ self.old.taken }
        ensures limit { self.new.limit ≡ self.old.limit }
        ensures rest { (more : List ℕ) → ahead self.old more ≡ came_then result self.new.progress.body (ahead self.new more) }
        ensures extent { (more : List ℕ) → end_ahead self.old more ≡ end_ahead self.new more }
        ensures header { self.new.progress.header ≡ header_known result self.old.progress.header }
        ensures head { (header : Header) → result ≡ Some (Next.Head header)
            → (self.old.progress.header ≡ None) × IsHeader header }
        ensures frame { (verifier : ℕ) → result ≡ Some (Next.Frame verifier)
            → IsSomeAnd self.old.progress.header (λ header.
            IsFrame header.verifiers (record { verifier = verifier; body = self.new.progress.body })) }
        ensures further { IfSome result (λ next. next ≢ Next.End
            → position self.old.progress < position self.new.progress) }
        ensures rises { position self.old.progress ≤ position self.new.progress }
        ensures split { position self.new.progress ≤ self.new.taken }
        ensures onward { self.old.progress.offset ≤ self.new.progress.offset }
        ensures bytes { (verifier : ℕ) → result ≡ Some (Next.Frame verifier)
            → self.old.progress.offset + length self.new.progress.body ≤ self.new.progress.offset }
        ensures none { result ≡ None → self.new.unread ≡ [] }
        ensures last { result ≡ Some Next.End → (more : List ℕ) → ahead self.new more ≡ ahead self.new [] }
        ensures over { result ≡ Some Next.End → (more : List ℕ) → end_ahead self.new more ≤ self.new.taken }
        ensures ended { result ≡ Some Next.End → IsSpent self.new }
        ensures due { result ≢ Some Next.End → IsDue self.new.progress }
    {
        let fed = self.splitter.feed(&self.room[self.from..self.until]);
        self.from += fed.taken;
        match fed.found {
            Found::Nothing => None,
            Found::Head(header) => Some(Next::Head(header)),
            Found::Frame(verifier) => Some(Next::Frame(verifier)),
            Found::Bad(_) => {
                self.from = self.until;
                Some(Next::End)
            }
        }
    }

    /// The body of the frame that came last, until more is read; else nothing.
    pub fn body(&self) -> &[u8]
        ensures value { result.now ≡ self.now.progress.body }
    {
        self.splitter.body()
    }

    /// Hands the frame that came last over to a buffer, for what that held: no byte is copied. Where none came
    /// last, the buffer holds nothing then.
    pub fn hand_over(&mut self, frame: &mut FrameBuffer)
        ensures body { frame.new ≡ self.old.progress.body }
        ensures rest { self.new ≡ record self.old { progress = record self.old.progress { body = [] } } }
    {
        self.splitter.hand_over(frame);
    }

    /// How many bytes were read.
    pub fn taken(&self) -> u64
        ensures value { result ≡ self.now.taken }
    {
        self.taken
    }

    /// The offset of the header or frame that is bad, or that is cut if the bundle ends here.
    pub fn bad(&self) -> Option<u64>
        ensures rest { rest_of self.now.progress []
            ≡ record { header = self.now.progress.header; frames = []; bad = result } }
        ensures ahead { self.now.unread ≡ [] → ahead self.now []
            ≡ record { header = self.now.progress.header; frames = []; bad = result } }
    {
        self.splitter.end()
    }
}

// Room for a piece.
fn new_room(alloc: Global) -> Result<Vec<u8>, AllocError>
    ensures len { IfOk result (λ room. vec_len room ≡ PIECE_BYTES) }
{
    vec![in alloc; 0u8; PIECE_BYTES]
}

// How many bytes are asked for: no more than the limit leaves, and once it is reached one more, so that
// it doesn't matter how reads are cut.
fn wanted(limit: u64, taken: u64) -> usize
    requires within { taken ≤ limit }
    ensures some { 0 < result }
    ensures room { result ≤ PIECE_BYTES }
    ensures limit { taken + result ≤ limit + 1 }
    ensures within { taken < limit → taken + result ≤ limit }
{
    let left = (limit - taken).min(PIECE_BYTES as u64);
    (left as usize).max(1)
}

// Reads into the front of the room.
fn read_some<S: Source>(source: &mut S, room: &mut [u8], want: usize) -> Result<usize, Failed>
    requires some { 0 < want }
    requires within { want ≤ length room.old }
    ensures bound { IfOk result (λ count. count ≤ want) }
    ensures bytes { ReadsOn (S.left source.old) (S.left source.new) result room.new }
    ensures length { length room.new ≡ length room.old }
    ensures counts { Counts (S.faults source.old) (S.faults source.new) result }
{
    source.read(&mut room[..want])
}
