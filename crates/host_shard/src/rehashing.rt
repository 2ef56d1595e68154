//! How a shard rehashes behind a chain: what the records along it are in the end.
ghost use Rattle.std.specs.Prelude.{◌≡◌, ◌<◌, false, length, IfOk, OnOk, OnErr};
ghost use Rattle.merkle_records.specs.Merkle.{pointer_to};
ghost use Rattle.host_shard.specs.Chain.{aimed, closed_value, closed_records};
ghost use Rattle.host_shard.specs.Records.{record_at, values_of, touches_of};
ghost use Rattle.host_shard.specs.Shard.{rehashed};
ghost use Rattle.host_shard.specs.Shown.{shown};

use crate::link::Link;
use crate::records::Records;
use crate::shard::Shard;
use base_words::Memory;
use merkle_records::digest_of;
use record_hash::Digests;
use record_text::{Pointer, Value};
use tree_keys::Path;

// The value of a path whose pointer to a path below it has the digest of that path's value.
fn aimed<D: Digests>(d: &D, at: &Path, value: &Value, path: &Path, below: &Value) -> Value
    ensures value { result ≡ aimed at.now value.now
        (pointer_to (D.functions d.now).digest path.now below.now) }
{
    let node = match value {
        Value::Node(node) => node,
        Value::Blob(blob) => return Value::Blob(blob.copy()),
    };
    let pointer = Pointer {
        path: *path,
        digest: digest_of(d, below),
        deferred: false,
    };
    match at.side(path) {
        Some(side) => Value::Node(node.with_side(side, Some(pointer))),
        None => Value::Node(*node),
    }
}

// Opens a record for each link on the way in, and sets its value on the way back, where the last one's becomes `last`. It
// answers the value of the path before the links. For want of memory what was opened is removed again.
pub(crate) fn rehash<D: Digests>(
    d: &D,
    records: &mut Records,
    at: &Path,
    value: &Value,
    links: &[Link],
    last: Value,
) -> Result<Value, Memory>
    ensures value { IfOk result (λ v. v ≡ closed_value (D.functions d.now).digest false
        at.now value.now links.now last) }
    ensures records { OnOk result (values_of records.new ≡ closed_records
        (D.functions d.now).digest false (values_of records.old) links.now last) }
    ensures touches { OnOk result (touches_of records.new ≡ touches_of records.old) }
    ensures as_before { OnErr result (record_at records.new ≡ record_at records.old) }
{
    let (link, rest) = match links.split_first() {
        Some(parts) => parts,
        None => return Ok(last),
    };
    let new = records.open(&link.path)?;
    match rehash(d, records, &link.path, &link.taken, rest, last) {
        Ok(becomes) => {
            let rehashed = aimed(d, at, value, &link.path, &becomes);
            records.set(&link.path, becomes);
            Ok(rehashed)
        }
        Err(memory) => {
            if new {
                records.remove(&link.path);
            }
            Err(memory)
        }
    }
}

impl Shard {
    /// Rehashes the shard behind a chain from its frontier: the value at the end becomes `last`, and each record above it
    /// keeps the digest of what the next one became. For want of memory all is as before.
    pub fn rehash<D: Digests>(&mut self, d: &D, links: &[Link], last: Value) -> Result<(), Memory>
        ensures rehashed { OnOk result (shown self.new ≡ rehashed
            (D.functions d.now).digest (shown self.old) links.now last) }
        ensures as_before { OnErr result (shown self.new ≡ shown self.old) }
    {
        self.value = rehash(
            d,
            &mut self.records,
            &self.frontier,
            &self.value,
            links,
            last,
        )?;
        Ok(())
    }
}
