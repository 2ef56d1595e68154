//! Frames that are read before they are fed.
ghost use Rattle.std.specs.Prelude.{◌≡◌, ◌+◌, ◌<◌, ◌≤◌, ◌++◌, ◌∷◌, [], length, map, take, true, false, IsSome, OnOk, OnErr, vec_len};
ghost use Rattle.bundle_frames.specs.Bundle.{longest_body};
ghost use Rattle.bundle_frames.specs.Extent.{IsDue};
ghost use Rattle.check_core.specs.Batch.{frame_in, bytes_of, HasFilled};

use base_words::Memory;
use bundle_frames::{BundleReader, FrameBuffer, Next};
use fv_outside::{Failure, Source};
use std::alloc::Global;
use std::marker::Model;

/// The most frames that are read before they are fed.
pub const BATCH_FRAMES: usize = 64;

/// How far frames were read.
#[derive(Clone, Copy, Debug, PartialEq, Eq)]
pub enum Filled {
    /// All that were to be read are there, and there may be more.
    Whole,
    /// The bundle ended, or what follows is bad.
    End,
    /// Reading stopped before the end.
    Stopped(Failure),
}

/// A frame that was read: whose, and its body.
#[derive(Drop)]
pub struct FrameHolder {
    pub verifier: u16,
    pub body: FrameBuffer,
}

/// The frames that are read before they are fed. Their buffers are used again and again. Contracts see the frames.
#[derive(Drop)]
pub struct Batch {
    holders: Vec<FrameHolder>,
    // So many of the holders hold a frame, of so many bytes in all.
    count: usize,
    bytes: u64,
}

impl Model for Batch {
    ghost use Rattle.std.specs.Prelude.{List};
    ghost use Rattle.bundle_frames.specs.Bundle.{Frame};
    ghost use Rattle.check_core.specs.Batch.{frames_of, IsBatch};

    ghost Value = { List Frame };

    ghost view = { frames_of };

    ghost invariant = { IsBatch };
}

impl Batch {
    /// A batch of no frames.
    pub fn new(alloc: Global) -> Self
        ensures empty { result ≡ [] }
    {
        Batch {
            holders: Vec::new(alloc),
            count: 0,
            bytes: 0,
        }
    }

    /// The frames.
    pub fn holders(&self) -> &[FrameHolder]
        ensures frames { map frame_in result.now ≡ self.now }
    {
        &self.holders[..self.count]
    }

    /// How many bytes the bodies of the frames have in all.
    pub fn bytes(&self) -> u64
        ensures value { result ≡ bytes_of self.now }
    {
        self.bytes
    }

    /// Reads the next frames, in place of those that are there: so many, or up to the end or to where reading stops. After want of memory batch and reader are of no more use.
    pub fn fill<S: Source>(
        &mut self,
        alloc: Global,
        reader: &mut BundleReader,
        source: &mut S,
        most: usize,
    ) -> Result<Filled, Memory>
        requires some { 0 < most }
        requires most { most ≤ 64 }
        requires due { IsDue reader.old.progress }
        requires header { IsSome reader.old.progress.header }

        // What was read are these frames, and so much was taken for them.
        ensures filled { HasFilled most self.new result reader.old reader.new
            (S.left source.old) (S.left source.new) (S.faults source.old) (S.faults source.new) }
    {
        self.clear();
        'frames: while self.lacks(most) {
            let next = match reader.next(source) {
                Ok(next) => next,
                Err(stop) => return Ok(Filled::Stopped(stop)),
            };
            match next {
                Next::Frame(verifier) => self.keep(alloc, reader, verifier)?,
                Next::End => return Ok(Filled::End),
                Next::Head(_) => return Ok(Filled::End),
            }
        }
        Ok(Filled::Whole)
    }

    // Lets the frames go.
    pub(crate) fn clear(&mut self)
        ensures empty { self.new ≡ [] }
    {
        self.count = 0;
        self.bytes = 0;
    }

    // Whether there are fewer frames than so many.
    fn lacks(&self, most: usize) -> bool
        ensures full { result ≡ false → most ≤ length self.now }
        ensures room { result ≡ true → length self.now < most }
    {
        self.count < most
    }

    // Keeps the frame that was read last, of this verifier.
    fn keep(
        &mut self,
        alloc: Global,
        reader: &mut BundleReader,
        verifier: u16,
    ) -> Result<(), Memory>
        requires room { length self.old < 64 }
        requires body { length reader.old.progress.body ≤ longest_body }
        ensures kept { OnOk result (self.new ≡ self.old ++ record { verifier = verifier; body = reader.old.progress.body } ∷ []) }
        ensures same { OnErr result (self.new ≡ self.old) }
        ensures handed { OnOk result (reader.new ≡ record reader.old { progress = record reader.old.progress { body = [] } }) }
        ensures reader { OnErr result (reader.new ≡ reader.old) }
    {
        make_room(alloc, &mut self.holders, self.count)?;
        let len = reader.body().len() as u64;
        put(&mut self.holders[self.count], reader, verifier);
        self.count += 1;
        self.bytes += len;
        Ok(())
    }
}

// Makes one holder more, if there are just so many.
fn make_room(alloc: Global, holders: &mut Vec<FrameHolder>, count: usize) -> Result<(), Memory>
    requires count { count ≤ vec_len holders.old }
    ensures same { take count holders.new.items ≡ take count holders.old.items }
    ensures count { count ≤ vec_len holders.new }
    ensures room { OnOk result (count < vec_len holders.new) }
{
    if count == holders.len() {
        let body = FrameBuffer::new(alloc)?;
        holders.push(FrameHolder { verifier: 0, body })?;
    }
    Ok(())
}

// Puts the frame that was read last, of this verifier, into a holder.
fn put(holder: &mut FrameHolder, reader: &mut BundleReader, verifier: u16)
    ensures frame { frame_in holder.new ≡ record { verifier = verifier; body = reader.old.progress.body } }
    ensures handed { reader.new ≡ record reader.old { progress = record reader.old.progress { body = [] } } }
{
    holder.verifier = verifier;
    reader.hand_over(&mut holder.body);
}
