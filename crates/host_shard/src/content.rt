//! What a place of the host's table holds.
ghost use Rattle.std.specs.Prelude.{◌≡◌, ◌<◌, ◌^◌};
ghost use Rattle.tree_keys.specs.Path.{IsData};
ghost use Rattle.record_text.specs.Element.{IsStamp};
ghost use Rattle.record_text.specs.Value.{IsOf};
ghost use Rattle.record_text.specs.Longest.{longest_blob};
ghost use Rattle.host_shard.specs.Content.{hot_path, pending, pending_hot};
ghost use Rattle.host_shard.specs.Shown.{shown_content};

use crate::shard::Shard;
use crate::waiting::waiting;
use lamport_clocks::Stamp;
use record_text::{Blob, Element, Value};
use tree_keys::Path;

/// The record of a key that waits by itself, apart from its shard.
#[derive(Debug, Drop)]
pub struct HotRecord {
    /// Whether the key is one of 128 bits, and not of 64.
    pub wide: bool,
    pub key: u128,
    pub value: Blob,
    /// The stamp with which it was evicted last.
    pub stamp: Stamp,
    /// The verifier that evicted it.
    pub evictor: u16,
    /// How often the key was touched in this epoch.
    pub touches: u64,
}

/// A shard, a hot record, or nothing.
#[derive(Drop)]
pub enum Content {
    Cold(Shard),
    Hot(HotRecord),
    Vacant,
}

// What an unused place of a table of fixed size holds.
impl Default for HotRecord {
    fn default() -> Self {
        HotRecord {
            wide: false,
            key: 0,
            value: Blob::none(),
            stamp: Stamp {
                epoch: 0,
                counter: 0,
            },
            evictor: 0,
            touches: 0,
        }
    }
}

impl HotRecord {
    /// The same record.
    pub fn copy(&self) -> Self
        ensures value { result ≡ self.now }
    {
        HotRecord {
            wide: self.wide,
            key: self.key,
            value: self.value.copy(),
            stamp: self.stamp,
            evictor: self.evictor,
            touches: self.touches,
        }
    }

    /// The path of its key.
    pub fn path(&self) -> Path
        ensures path { result ≡ hot_path self.now }
        ensures whole { IsData result }
    {
        Path::of_number(self.wide, self.key)
    }

    /// The element with which the record waits, until a verifier takes it in.
    pub fn pending(&self) -> Element
        ensures value { result ≡ pending_hot self.now }
        ensures kind { IsOf longest_blob result.path result.value }
        ensures stamp { IsStamp result.stamp }
        ensures verifier { result.verifier < 2 ^ 16 }
    {
        let value = Value::Blob(self.value.copy());
        waiting(self.path(), value, self.stamp, self.evictor)
    }
}

impl Content {
    /// The element with which the content waits, if it isn't vacant.
    pub fn pending(&self) -> Option<Element>
        ensures value { result ≡ pending (shown_content self.now) }
    {
        match self {
            Content::Cold(shard) => Some(shard.pending()),
            Content::Hot(hot) => Some(hot.pending()),
            Content::Vacant => None,
        }
    }
}
