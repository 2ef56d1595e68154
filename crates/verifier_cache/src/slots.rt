//! The cache of a verifier whose commands name slots.
ghost use Rattle.std.specs.Prelude.{◌≡◌, ◌^◌, ◌<◌, ◌≤◌, length, All, Some, None, IsSome, IsNone, IsTrue, IfSome, IfOk};
ghost use Rattle.std.specs.Option.{option_copied};
ghost use Rattle.record_text.specs.declared.value.Value.TheVariants as values;
ghost use Rattle.verifier_cache.specs.Entry.{with_value, linked};
ghost use Rattle.verifier_cache.specs.Slots.{is_slot, entry_at, with_slot, empty_slots};
ghost use Rattle.verifier_cache.specs.Listed.{listed_from, with_listed};

use crate::entry::Entry;
use crate::listed::ListedEntry;
use base_words::Memory;
use record_text::{Blob, Pointer, Value};
use std::alloc::Global;
use std::marker::Model;

/// So many slots, each empty or with one entry. Nothing is searched for, and a path may stand in two of them.
#[derive(Debug, Drop)]
pub struct SlotCache {
    slots: Vec<Option<Entry>>,
}

impl Model for SlotCache {
    ghost use Rattle.verifier_cache.specs.Entry.{with_value, linked};
    ghost use Rattle.verifier_cache.specs.Slots.{Slots};

    ghost Value = { Slots };

    ghost view = { λ c. c.slots.items };
}

impl SlotCache {
    /// So many empty slots. It takes all of its memory here.
    pub fn new(alloc: Global, count: u32) -> Result<Self, Memory>
        ensures empty { IfOk result (λ cache. cache ≡ empty_slots count) }
    {
        let mut slots = Vec::with_capacity(alloc, count as usize)?;
        for _ in 0..count {
            slots.push(None)?;
        }
        Ok(SlotCache { slots })
    }

    /// So many slots, with these entries in theirs and the others empty. It takes all of its memory here.
    pub fn of_entries(alloc: Global, count: u32, listed: &[ListedEntry]) -> Result<Self, Memory>
        requires slots { All (λ one. one.slot < count) listed.now }
        ensures slots { IfOk result (λ cache. cache ≡ with_listed (empty_slots count) listed.now) }
    {
        let mut cache = SlotCache::new(alloc, count)?;
        for one in listed {
            cache.slots[usize::from(one.slot)] = Some(one.entry.copy());
        }
        Ok(cache)
    }

    /// Its entries by rising slot.
    pub fn listed(&self, alloc: Global) -> Result<Vec<ListedEntry>, Memory>
        requires numbered { length self.now ≤ 2 ^ 16 }
        ensures listed { IfOk result (λ listed. listed.items ≡ listed_from 0 self.now) }
    {
        let mut listed = Vec::new(alloc);
        for (slot, held) in self.slots.iter().enumerate() {
            if let Some(entry) = held {
                listed.push(ListedEntry {
                    slot: slot as u16,
                    entry: entry.copy(),
                })?;
            }
        }
        Ok(listed)
    }

    /// Whether there is a slot of this number.
    pub fn is_slot(&self, slot: u16) -> bool
        ensures value { result ≡ is_slot self.now slot }
    {
        usize::from(slot) < self.slots.len()
    }

    /// The entry in a slot, if there is such a slot and it isn't empty.
    pub fn at(&self, slot: u16) -> Option<&Entry>
        ensures value { option_copied result ≡ entry_at self.now slot }
    {
        match self.slots.get(usize::from(slot)) {
            Some(Some(entry)) => Some(entry),
            _ => None,
        }
    }

    /// Puts an entry into an empty slot.
    pub fn put_at(&mut self, slot: u16, entry: Entry)
        requires slot { IsTrue (is_slot self.old slot) }
        requires empty { IsNone (entry_at self.old slot) }
        ensures slots { self.new ≡ with_slot self.old slot (Some entry) }
    {
        let place = usize::from(slot);
        self.slots[place] = Some(entry);
    }

    /// Writes the pointer of a side of a slot's node, and sets or clears the kid bit of that side.
    pub fn link_at(&mut self, slot: u16, side: bool, pointer: Option<Pointer>, kid: bool)
        requires there { IsSome (entry_at self.old slot) }
        ensures slots { IfSome (entry_at self.old slot)
            (λ entry. self.new ≡ with_slot self.old slot (Some (linked entry side pointer kid))) }
    {
        if let Some(entry) = &mut self.slots[usize::from(slot)] {
            entry.link(side, pointer, kid);
        }
    }

    /// Writes a data value where the value of the entry in a slot stands.
    pub fn write_at(&mut self, slot: u16, value: &Blob)
        requires there { IsSome (entry_at self.old slot) }
        ensures slots { IfSome (entry_at self.old slot)
            (λ entry. self.new ≡ with_slot self.old slot (Some (with_value entry (values.Blob value.now)))) }
    {
        if let Some(entry) = &mut self.slots[usize::from(slot)] {
            write_blob(&mut entry.value, value);
        }
    }

    /// Empties a slot.
    pub fn leave_at(&mut self, slot: u16)
        requires there { IsSome (entry_at self.old slot) }
        ensures slots { self.new ≡ with_slot self.old slot None }
    {
        self.slots[usize::from(slot)] = None;
    }
}

// Becomes this data value: data over data where it stands.
fn write_blob(value: &mut Value, blob: &Blob)
    ensures value { value.new ≡ values.Blob blob.now }
{
    if let Value::Blob(own) = &mut *value {
        own.assign(blob);
        return;
    }
    *value = Value::Blob(blob.copy());
}
