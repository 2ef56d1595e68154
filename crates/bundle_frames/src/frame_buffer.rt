//! A frame's bytes, handed over without a copy.
ghost use Rattle.std.specs.Prelude.{◌≡◌, ◌≤◌, [], length, drop, IfOk};
ghost use Rattle.std.specs.Vec.{vec_capacity};
ghost use Rattle.bundle_frames.specs.Bundle.{head_bytes};

use crate::fields::HEAD_BYTES;
use crate::parts::MOST_BYTES;
use base_words::Memory;
use std::alloc::Global;
use std::marker::Model;
use std::mem;

/// Holds one frame, with room for the longest. Contracts see it as the frame's body.
#[derive(Drop)]
pub struct FrameBuffer {
    // The frame with its head, or nothing.
    bytes: Vec<u8>,
}

impl Model for FrameBuffer {
    ghost use Rattle.std.specs.Prelude.{ℕ, List};

    ghost Value = { List ℕ };

    ghost use Rattle.bundle_frames.specs.FrameBuffer.{body_of, HasRoom};

    ghost view = { body_of };

    ghost invariant = { HasRoom };
}

impl FrameBuffer {
    /// A buffer that holds nothing yet. It takes its memory at once.
    pub fn new(alloc: Global) -> Result<FrameBuffer, Memory>
        ensures empty { IfOk result (λ frame. frame ≡ []) }
    {
        Ok(FrameBuffer {
            bytes: Vec::with_capacity(alloc, MOST_BYTES)?,
        })
    }

    /// The frame's body.
    pub fn body(&self) -> &[u8]
        ensures value { result.now ≡ self.now }
    {
        if self.bytes.is_empty() {
            &[]
        } else {
            &self.bytes[HEAD_BYTES..]
        }
    }

    // Lets the frame go.
    pub(crate) fn clear(&mut self)
        ensures empty { self.new ≡ [] }
    {
        self.bytes.clear();
    }

    // Takes a buffer that is a whole frame, and gives its own for it, with nothing in it.
    pub(crate) fn take(&mut self, buffer: &mut Vec<u8>)
        requires room { MOST_BYTES ≤ vec_capacity buffer.old }
        requires head { head_bytes ≤ length buffer.old.items }
        ensures body { self.new ≡ drop head_bytes buffer.old.items }
        ensures empty { buffer.new.items ≡ [] }
        ensures room { MOST_BYTES ≤ vec_capacity buffer.new }
    {
        self.bytes.clear();
        mem::swap(&mut self.bytes, buffer);
    }
}
