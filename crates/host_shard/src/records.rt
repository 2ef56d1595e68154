//! The records of a shard by their paths.
ghost use Rattle.std.specs.Prelude.{◌≡◌, [], not, is_some, unwrap_or, Some, None, IsSome, IfOk, IfSome, OnOk, OnErr};
ghost use Rattle.std.specs.Option.{option_copied, option_map};
ghost use Rattle.host_shard.specs.declared.record.Record.{Record};
ghost use Rattle.host_shard.specs.Records.{record_at, with_kept, new_record, untouched, AreInOrder};
ghost use Rattle.host_shard.specs.Shard.{one_more};
ghost use Rattle.host_shard.specs.Touched.{AreAmong};

use crate::changing::{forget_touches, set_at, touch_at};
use crate::record::Record;
use crate::touched::Touched;
use base_words::Memory;
use record_text::{Value, initial};
use std::alloc::Global;
use std::collections::BTreeMap;
use std::collections::btree_map::Iter;
use std::marker::Model;
use tree_keys::Path;

/// Records by their paths. Contracts see the list of them.
#[derive(Drop)]
pub struct Records {
    map: BTreeMap<Path, Record>,
    // Of which records touches are counted, so that they are forgotten in a time that goes by these alone.
    touched: Touched,
}

impl Model for Records {
    ghost use Rattle.host_shard.specs.Records.{Listed};
    ghost use Rattle.host_shard.specs.Touched.{AreNoted};

    ghost Value = { Listed };

    ghost view = { λ r. r.map.entries };

    ghost invariant = { λ r. AreNoted r.touched r.map.entries };
}

impl Records {
    /// No records. They take memory from `alloc` as they come.
    pub fn new(alloc: Global) -> Self
        ensures empty { result ≡ [] }
    {
        Records {
            map: BTreeMap::new(alloc),
            touched: Touched::new(alloc),
        }
    }

    /// The record of a path, if it has one.
    pub fn get(&self, path: &Path) -> Option<&Record>
        ensures value { option_copied result ≡ record_at self.now path.now }
    {
        self.map.get(path)
    }

    /// The records with their paths, in the order of the paths: shorter ones first, then by their tree, then by their bits.
    pub fn iter(&self) -> Iter<'_, Path, Record>
        ensures rest { result ≡ self.now }
        ensures in_order { AreInOrder self.now }
    {
        self.map.iter()
    }

    /// The paths of the records that are touched, where they are listed and few beside all records: one in sixteen at most. A path
    /// may be there more than once, and may have lost its record since.
    pub fn few_touched(&self) -> Option<&[Path]>
        ensures all { IfSome result (λ paths. AreAmong paths.now self.now) }
        ensures in_order { AreInOrder self.now }
    {
        let most = self.map.len() / 16;
        match self.touched.all() {
            Some(paths) if paths.len() <= most => Some(paths),
            _ => None,
        }
    }

    /// Makes sure that a path has a record, and answers whether it is a new one. For want of memory all is as before.
    pub fn open(&mut self, path: &Path) -> Result<bool, Memory>
        ensures new { IfOk result (λ new. new ≡ not (is_some (record_at self.old path.now))) }
        ensures opened { OnOk result (record_at self.new ≡ with_kept (record_at self.old) path.now
            (Some (unwrap_or (record_at self.old path.now) (new_record path.now)))) }
        ensures as_before { OnErr result (self.new ≡ self.old) }
    {
        if self.map.contains_key(path) {
            return Ok(false);
        }
        let new = Record {
            value: initial(path),
            touches: 0,
        };
        self.map.insert(*path, new)?;
        Ok(true)
    }

    /// Drops the record of a path.
    pub fn remove(&mut self, path: &Path)
        ensures removed { record_at self.new ≡ with_kept (record_at self.old) path.now None }
    {
        self.map.remove(path);
    }

    /// Sets the value of a path that has a record.
    pub fn set(&mut self, path: &Path, value: Value)
        ensures set { record_at self.new ≡ with_kept (record_at self.old) path.now
            (option_map (λ r. record { value = value; touches = r.touches }) (record_at self.old path.now)) }
    {
        set_at(&mut self.map, path, value);
    }

    /// Counts one touch more of a path that has a record.
    pub fn touch(&mut self, path: &Path)
        ensures touched { record_at self.new ≡ with_kept (record_at self.old) path.now
            (option_map (λ r. record { value = r.value; touches = one_more r.touches }) (record_at self.old path.now)) }
    {
        if touch_at(&mut self.map, path) {
            self.touched.note(path);
        }
    }

    /// Sets the touches of all records to 0.
    pub fn forget_touches(&mut self)
        ensures forgotten { record_at self.new ≡ untouched (record_at self.old) }
    {
        forget_touches(&mut self.map, self.touched.all());
        self.touched.clear();
    }
}
