//! The first record that came back by its digest, with another text than the one that went out.
ghost use Rattle.std.specs.Prelude.{◌≡◌, IfOk, OnOk, OnErr, Some};
ghost use Rattle.std.specs.Option.{option_map};
ghost use Rattle.soundness.specs.Clash.{none_evicted, differing};
ghost use Rattle.collision_exhibit.specs.Shown.{audit_events_within, clash_among, clash_by, last_evicted_by};
ghost use Rattle.collision_exhibit.specs.LastEvicted.{last_evicted_at};
ghost use Rattle.collision_exhibit.specs.Within.{is_within};

use crate::audit_event::{AuditChange, AuditEvent};
use crate::last_evicted::LastEvictedValues;
use base_words::Memory;
use record_text::{Value, ValueText};
use std::alloc::Global;

/// Two strings with one digest: what was evicted, and the other that was added for it.
#[derive(Debug, Drop)]
pub(crate) struct Clash {
    pub(crate) evicted: ValueText,
    pub(crate) added: ValueText,
}

/// The first clash among the audit events of so many epochs from this one on, and of those before it. It goes over the
/// audit events once, and makes texts only of a record that comes back after it went out.
pub(crate) fn first_clash(
    alloc: Global,
    audited: &[AuditEvent],
    first: u32,
    epochs: u64,
) -> Result<Option<Clash>, Memory>
    ensures clash { IfOk result (λ found. option_map (λ c. (c.evicted, c.added)) found ≡ clash_among none_evicted (audit_events_within first epochs audited.now)) }
{
    let mut last = LastEvictedValues::new(alloc);
    for item in audited {
        if is_within(item, first, epochs) {
            match clash_by(&last, &item.change) {
                Some(clash) => return Ok(Some(clash)),
                None => keep_last(&mut last, &item.change)?,
            }
        }
    }
    Ok(None)
}

// Whether an audit event is of one of so many epochs from this one on, or of one before it. Of no epochs there is none.
fn is_within(item: &AuditEvent, first: u32, epochs: u64) -> bool
    ensures value { result ≡ is_within first epochs item.now }
{
    // An epoch before the first counts as the first.
    (item.moment.at.epoch.saturating_sub(first) as u64) < epochs
}

// What went out and what came back for it by this change, if their texts differ.
fn clash_by(last: &LastEvictedValues, change: &AuditChange) -> Option<Clash>
    ensures value { option_map (λ c. (c.evicted, c.added)) result ≡ clash_by (last_evicted_at last.now) change.now }
{
    match change {
        AuditChange::AddM(path, added) => match last.get(path) {
            Some(evicted) => differing(evicted, added),
            None => None,
        },
        _ => None,
    }
}

// The texts of two values, if they differ.
fn differing(evicted: &Value, added: &Value) -> Option<Clash>
    ensures value { option_map (λ c. (c.evicted, c.added)) result ≡ differing (Some evicted.now) added.now }
{
    let evicted = ValueText::of(evicted);
    let added = ValueText::of(added);
    if evicted.as_slice() == added.as_slice() {
        None
    } else {
        Some(Clash { evicted, added })
    }
}

// Keeps what a change took out.
fn keep_last<'a>(last: &mut LastEvictedValues<'a>, change: &'a AuditChange) -> Result<(), Memory>
    ensures ok { OnOk result (last_evicted_at last.new ≡ last_evicted_by (last_evicted_at last.old) change.now) }
    ensures err { OnErr result (last.new ≡ last.old) }
{
    match change {
        AuditChange::EvictM(path, value) => last.put(path, value),
        _ => Ok(()),
    }
}
