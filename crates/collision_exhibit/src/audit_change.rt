//! What a command does for an audit, told from the cache that its verifier has before it.
ghost use Rattle.std.specs.Prelude.{◌≡◌, Some};
ghost use Rattle.std.specs.Option.{option_map, option_copied};
ghost use Rattle.verifier_commands.specs.Changes.{above};
ghost use Rattle.verifier_commands.specs.VerifierState.{path_entry, slot_entry};
ghost use Rattle.soundness.specs.Clash.{is_known};
ghost use Rattle.collision_exhibit.specs.declared.audit_event.AuditChange.TheVariants as audits;
ghost use Rattle.collision_exhibit.specs.AuditChange.{audit_change_of, path_audit_change, slot_audit_change, added_under, evicted_m, evicted_with};

use crate::audit_event::AuditChange;
use lamport_clocks::Stamp;
use log_codec::{Command, LogCommand, SlotCommand};
use record_text::{Element, Value};
use tree_keys::Path;
use verifier_cache::Entry;
use verifier_commands::Verifier;

/// What the next command of a verifier, which has this number, does for an audit, if it is accepted.
pub(crate) fn audit_change_of(
    number: u16,
    verifier: &Verifier,
    command: &LogCommand,
) -> Option<AuditChange>
    ensures value { result ≡ audit_change_of number verifier.now.state.cache command.now }
{
    match command {
        LogCommand::ByPath(command) => path_change(number, verifier, command),
        LogCommand::BySlot(command) => slot_change(number, verifier, command),
    }
}

// The same of a command that names paths.
fn path_change(number: u16, verifier: &Verifier, command: &Command) -> Option<AuditChange>
    ensures value { result ≡ path_audit_change number (path_entry verifier.now.state.cache) command.now }
{
    match command {
        Command::AddM {
            path,
            value,
            parent,
        } => joined(verifier.entry_of(parent), path, value),
        Command::EvictM { path, parent: _ } => left(verifier.entry_of(path)),
        Command::AddB {
            path,
            value,
            stamp,
            verifier,
        } => came(path, value, *stamp, *verifier),
        Command::EvictB { path, stamp } => went(number, verifier.entry_of(path), *stamp),
        Command::EvictBM {
            path,
            parent: _,
            stamp,
        } => went(number, verifier.entry_of(path), *stamp),
        Command::Get { .. } | Command::Put { .. } | Command::NextEpoch | Command::Absent { .. } =>
            None,
    }
}

// The same of a command that names slots.
fn slot_change(number: u16, verifier: &Verifier, command: &SlotCommand) -> Option<AuditChange>
    ensures value { result ≡ slot_audit_change number (slot_entry verifier.now.state.cache) command.now }
{
    match command {
        SlotCommand::AddM {
            slot: _,
            path,
            value,
            parent,
        } => joined(verifier.entry_at(*parent), path, value),
        SlotCommand::EvictM { slot, parent: _ } => left(verifier.entry_at(*slot)),
        SlotCommand::AddB {
            slot: _,
            path,
            value,
            stamp,
            verifier,
        } => came(path, value, *stamp, *verifier),
        SlotCommand::EvictB { slot, stamp } => went(number, verifier.entry_at(*slot), *stamp),
        SlotCommand::EvictBM {
            slot,
            parent: _,
            stamp,
        } => went(number, verifier.entry_at(*slot), *stamp),
        SlotCommand::Get { .. }
        | SlotCommand::Put { .. }
        | SlotCommand::NextEpoch
        | SlotCommand::Absent { .. } => None,
    }
}

// A record comes in by its digest, under the holder, if there is one. Nothing is told of it where it is new under it.
fn joined(holder: Option<&Entry>, path: &Path, value: &Value) -> Option<AuditChange>
    ensures value { result ≡ added_under (option_copied holder.entry) path.now value.now }
{
    let holder = holder?;
    if is_known(holder, path) {
        Some(AuditChange::AddM(*path, value.copy()))
    } else {
        None
    }
}

// A record goes out into its parent.
fn left(found: Option<&Entry>) -> Option<AuditChange>
    ensures value { result ≡ option_map evicted_m (option_copied found.entry) }
{
    let entry = found?;
    Some(AuditChange::EvictM(entry.path, entry.value.copy()))
}

// A record comes in with the stamp that it went out with.
fn came(path: &Path, value: &Value, stamp: Stamp, verifier: u16) -> Option<AuditChange>
    ensures value { result ≡ Some (audits.AddB (record { path = path.now; value = value.now; stamp = stamp; verifier = verifier })) }
{
    Some(AuditChange::AddB(Element {
        path: *path,
        value: value.copy(),
        stamp,
        verifier,
    }))
}

// A record goes out with a stamp.
fn went(number: u16, found: Option<&Entry>, stamp: Stamp) -> Option<AuditChange>
    ensures value { result ≡ option_map (evicted_with number stamp) (option_copied found.entry) }
{
    let entry = found?;
    Some(AuditChange::EvictB(Element {
        path: entry.path,
        value: entry.value.copy(),
        stamp,
        verifier: number,
    }))
}

// Whether the holder's pointer on the path's side leads to the path.
fn is_known(holder: &Entry, path: &Path) -> bool
    ensures value { result ≡ is_known (above holder.now path.now) path.now }
{
    let (Some(on), Value::Node(node)) = (holder.path.side(path), &holder.value) else {
        return false;
    };
    match node.side(on) {
        Some(pointer) => pointer.path.is_same(path),
        None => false,
    }
}
