//! Hot records that stay hot: each is taken in and handed out again.
ghost use Rattle.std.specs.Prelude.{◌≡◌, ◌<◌, ◌≤◌, ◌^◌, [], ◌∷◌, ◌++◌, length, map, IfOk, OnOk, IsTrue};
ghost use Rattle.std.specs.List.{AllByRecursion};
ghost use Rattle.lamport_clocks.specs.Clock.{is_open};
ghost use Rattle.record_text.specs.Value.{IsOf};
ghost use Rattle.record_text.specs.Element.{IsStamp};
ghost use Rattle.record_text.specs.Longest.{longest_blob};
ghost use Rattle.log_codec.specs.Command.{IsPathCommand};
ghost use Rattle.host_shard.specs.Shown.{shown_content};
ghost use Rattle.host_plan.specs.Visit.{between};
ghost use Rattle.protection_moves.specs.Renewing.{renewing_commands, renewing_each, renewed_places};
ghost use Rattle.protection_moves.specs.Done.{taking_in};

use crate::hot_places::replace;
use base_words::Memory;
use host_plan::renewed;
use host_shard::{Content, HotRecord};
use lamport_clocks::{Clock, Stamp};
use log_codec::Command;
use record_text::Element;
use std::alloc::Global;

// The commands that renew these records and then take an element in. There is room for the rest of a move without transfers.
pub(crate) fn begin(
    alloc: Global,
    clock: &Clock,
    records: &[HotRecord],
    element: Element,
) -> Result<Vec<Command>, Memory>
    requires few { length records.now ≤ 4 }
    requires open { AllByRecursion (λ found. IsTrue (is_open clock.now found.stamp.epoch)) records.now }
    requires within { (renewing_each clock.now records.now).at.counter ≤ clock.now.end }
    requires kind { IsOf longest_blob element.path element.value }
    requires added { IsStamp element.stamp }
    requires verifier { element.verifier < 2 ^ 16 }
    ensures logged { IfOk result (λ commands. commands.items
        ≡ renewing_commands clock.now records.now ++ taking_in element ∷ []) }
    ensures typed { IfOk result (λ commands. AllByRecursion (IsPathCommand longest_blob) commands.items) }
{
    let mut commands = room_for(alloc, records.len() + 1)?;
    log_renewals(&mut commands, clock, records)?;
    log_taking(&mut commands, element)?;
    Ok(commands)
}

// Room for the commands of so many renewals.
fn room_for(alloc: Global, renewals: usize) -> Result<Vec<Command>, Memory>
    requires few { renewals ≤ 5 }
    ensures empty { IfOk result (λ commands. commands.items ≡ []) }
{
    Ok(Vec::with_capacity(alloc, 2 * renewals)?)
}

// Logs that an element is taken in.
fn log_taking(commands: &mut Vec<Command>, element: Element) -> Result<(), Memory>
    requires kind { IsOf longest_blob element.path element.value }
    requires added { IsStamp element.stamp }
    requires verifier { element.verifier < 2 ^ 16 }
    ensures logged { OnOk result (commands.new.items ≡ commands.old.items ++ taking_in element ∷ []) }
    ensures typed { OnOk result (AllByRecursion (IsPathCommand longest_blob) commands.old.items
        → AllByRecursion (IsPathCommand longest_blob) commands.new.items) }
{
    commands.push(Command::AddB {
        path: element.path,
        value: element.value,
        stamp: element.stamp,
        verifier: element.verifier,
    })?;
    Ok(())
}

// Logs that an element is taken in and its path handed out with this stamp.
fn log_renewal(commands: &mut Vec<Command>, element: Element, stamp: Stamp) -> Result<(), Memory>
    requires kind { IsOf longest_blob element.path element.value }
    requires added { IsStamp element.stamp }
    requires verifier { element.verifier < 2 ^ 16 }
    ensures logged { OnOk result (commands.new.items ≡ commands.old.items ++ between element stamp []) }
    ensures typed { OnOk result (AllByRecursion (IsPathCommand longest_blob) commands.old.items
        → AllByRecursion (IsPathCommand longest_blob) commands.new.items) }
{
    let path = element.path;
    log_taking(commands, element)?;
    commands.push(Command::EvictB { path, stamp })?;
    Ok(())
}

// Logs that these records are renewed one after another.
fn log_renewals(
    commands: &mut Vec<Command>,
    clock: &Clock,
    records: &[HotRecord],
) -> Result<(), Memory>
    requires open { AllByRecursion (λ found. IsTrue (is_open clock.now found.stamp.epoch)) records.now }
    requires within { (renewing_each clock.now records.now).at.counter ≤ clock.now.end }
    ensures logged { OnOk result (commands.new.items
        ≡ commands.old.items ++ renewing_commands clock.now records.now) }
    ensures typed { OnOk result (AllByRecursion (IsPathCommand longest_blob) commands.old.items
        → AllByRecursion (IsPathCommand longest_blob) commands.new.items) }
{
    let (first, rest) = match records.split_first() {
        Some(parts) => parts,
        None => return Ok(()),
    };
    match renewed(clock, first.stamp) {
        Some(next) => {
            log_renewal(commands, first.pending(), next.at())?;
            log_renewals(commands, &next, rest)
        }
        None => unreachable!(),
    }
}

// Puts these records in the places of their keys, as they are once they were renewed by this worker.
pub(crate) fn renew_places(
    places: &mut [Content],
    worker: u16,
    clock: &Clock,
    records: &[HotRecord],
)
    requires open { AllByRecursion (λ found. IsTrue (is_open clock.now found.stamp.epoch)) records.now }
    requires within { (renewing_each clock.now records.now).at.counter ≤ clock.now.end }
    ensures renewed { map shown_content places.new
        ≡ renewed_places worker clock.now (map shown_content places.old) records.now }
{
    if let Some((first, rest)) = records.split_first() {
        match renewed(clock, first.stamp) {
            Some(next) => {
                let new = HotRecord {
                    wide: first.wide,
                    key: first.key,
                    value: first.value.copy(),
                    stamp: next.at(),
                    evictor: worker,
                    touches: 0,
                };
                replace(places, first.key, Some(&new));
                renew_places(places, worker, &next, rest);
            }
            None => unreachable!(),
        }
    }
}
