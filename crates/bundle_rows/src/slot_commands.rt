//! The command of a row that names slots.
use crate::fields::{data_value_of, path_of, slot_of, stamp_of, value_of, verifier_of};
use lamport_clocks::Stamp;
use log_codec::SlotCommand;
use record_text::Blob;
use std::str::SplitWhitespace;

/// The command that a row spells, if it spells one that names slots.
pub fn slot_command_of(row: &str) -> Option<SlotCommand> {
    let mut words = row.split_whitespace();
    let command = named(words.next()?, &mut words)?;
    match words.next() {
        None => Some(command),
        Some(_) => None,
    }
}

// The command of this name, of its fields.
fn named(name: &str, fields: &mut SplitWhitespace<'_>) -> Option<SlotCommand> {
    match name {
        "addM" => add_by_tree(fields),
        "evictM" => evict_to_tree(fields),
        "addB" => add_by_stamp(fields),
        "evictB" => evict_under_stamp(fields),
        "evictBM" => evict_from_tree(fields),
        "get" => get(fields),
        "put" => put(fields),
        _ => None,
    }
}

// The slot that the next field spells.
fn slot(fields: &mut SplitWhitespace<'_>) -> Option<u16> {
    slot_of(fields.next()?)
}

// The stamp that the next field spells.
fn stamp(fields: &mut SplitWhitespace<'_>) -> Option<Stamp> {
    stamp_of(fields.next()?)
}

// The data value that the next field spells.
fn data_value(fields: &mut SplitWhitespace<'_>) -> Option<Blob> {
    data_value_of(fields.next()?)
}

// An add by the tree, of its fields.
fn add_by_tree(fields: &mut SplitWhitespace<'_>) -> Option<SlotCommand> {
    let slot = slot(fields)?;
    let path = path_of(fields.next()?)?;
    let value = value_of(&path, fields.next()?)?;
    let parent = slot_of(fields.next()?)?;
    Some(SlotCommand::AddM {
        slot,
        path,
        value,
        parent,
    })
}

// An evict to the tree, of its fields.
fn evict_to_tree(fields: &mut SplitWhitespace<'_>) -> Option<SlotCommand> {
    Some(SlotCommand::EvictM {
        slot: slot(fields)?,
        parent: slot(fields)?,
    })
}

// An add by a stamp, of its fields.
fn add_by_stamp(fields: &mut SplitWhitespace<'_>) -> Option<SlotCommand> {
    let slot = slot(fields)?;
    let path = path_of(fields.next()?)?;
    let value = value_of(&path, fields.next()?)?;
    Some(SlotCommand::AddB {
        slot,
        path,
        value,
        stamp: stamp(fields)?,
        verifier: verifier_of(fields.next()?)?,
    })
}

// An evict under a stamp, of its fields.
fn evict_under_stamp(fields: &mut SplitWhitespace<'_>) -> Option<SlotCommand> {
    Some(SlotCommand::EvictB {
        slot: slot(fields)?,
        stamp: stamp(fields)?,
    })
}

// An evict under a stamp of what the tree had, of its fields.
fn evict_from_tree(fields: &mut SplitWhitespace<'_>) -> Option<SlotCommand> {
    Some(SlotCommand::EvictBM {
        slot: slot(fields)?,
        parent: slot(fields)?,
        stamp: stamp(fields)?,
    })
}

// A get, of its fields.
fn get(fields: &mut SplitWhitespace<'_>) -> Option<SlotCommand> {
    Some(SlotCommand::Get {
        slot: slot(fields)?,
        value: data_value(fields)?,
    })
}

// A put, of its fields.
fn put(fields: &mut SplitWhitespace<'_>) -> Option<SlotCommand> {
    Some(SlotCommand::Put {
        slot: slot(fields)?,
        value: data_value(fields)?,
    })
}
