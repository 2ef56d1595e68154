//! The bytes of a log that grows.
ghost use Rattle.std.specs.Prelude.{◌≡◌, [], ◌++◌, IfOk, OnOk, OnErr};

use base_words::Memory;
use std::alloc::Global;
use std::marker::Model;
use std::mem;

/// The texts of commands, one behind another. Contracts see these bytes.
#[derive(Debug, Drop)]
pub struct LogBuffer {
    bytes: Vec<u8>,
}

impl Model for LogBuffer {
    ghost use Rattle.std.specs.Prelude.{ℕ, List};

    ghost Value = { List ℕ };

    ghost view = { λ buffer. buffer.bytes.items };
}

impl LogBuffer {
    /// Nothing yet. It takes its memory as it grows.
    pub fn new(alloc: Global) -> Self
        ensures empty { result ≡ [] }
    {
        LogBuffer {
            bytes: Vec::new(alloc),
        }
    }

    /// These bytes, and nothing else.
    pub fn of(alloc: Global, bytes: &[u8]) -> Result<Self, Memory>
        ensures value { IfOk result (λ buffer. buffer ≡ bytes.now) }
    {
        let mut buffer = LogBuffer::new(alloc);
        buffer.push(bytes)?;
        Ok(buffer)
    }

    /// Adds bytes: the texts of one command or of many. For want of memory all is as before.
    pub fn push(&mut self, bytes: &[u8]) -> Result<(), Memory>
        ensures pushed { OnOk result (self.new ≡ self.old ++ bytes.now) }
        ensures as_before { OnErr result (self.new ≡ self.old) }
    {
        Ok(self.bytes.extend_from_slice(bytes)?)
    }

    /// What was pushed.
    pub fn bytes(&self) -> &[u8]
        ensures value { result.now ≡ self.now }
    {
        self.bytes.as_slice()
    }

    /// What was pushed goes to another buffer, in place of what that held. This one goes on with the other's memory.
    pub fn hand_over(&mut self, to: &mut LogBuffer)
        ensures handed { to.new ≡ self.old }
        ensures empty { self.new ≡ [] }
    {
        to.clear();
        mem::swap(self, to);
    }

    /// Lets what was pushed go, and keeps the memory.
    pub fn clear(&mut self)
        ensures empty { self.new ≡ [] }
    {
        self.bytes.clear();
    }
}
