//! The command of a row.
use crate::fields::{path_of, stamp_of, value_of, verifier_of};
use lamport_clocks::Stamp;
use log_codec::Command;
use record_text::Value;
use std::str::SplitWhitespace;
use tree_keys::Path;

/// The command that a row spells, if it does.
pub fn command_of(row: &str) -> Option<Command> {
    let mut words = row.split_whitespace();
    let command = named(words.next()?, &mut words)?;
    match words.next() {
        None => Some(command),
        Some(_) => None,
    }
}

// The command of this name, of its fields.
fn named(name: &str, fields: &mut SplitWhitespace<'_>) -> Option<Command> {
    match name {
        "addM" => add_by_tree(fields),
        "evictM" => evict_to_tree(fields),
        "addB" => add_by_stamp(fields),
        "evictB" => evict_under_stamp(fields),
        "evictBM" => evict_from_tree(fields),
        "get" => get(fields),
        "put" => put(fields),
        "next" => Some(Command::NextEpoch),
        "absent" => absent(fields),
        _ => None,
    }
}

// The path that the next field spells.
fn path(fields: &mut SplitWhitespace<'_>) -> Option<Path> {
    path_of(fields.next()?)
}

// The value at a path that the next field spells.
fn value(path: &Path, fields: &mut SplitWhitespace<'_>) -> Option<Value> {
    value_of(path, fields.next()?)
}

// The stamp that the next field spells.
fn stamp(fields: &mut SplitWhitespace<'_>) -> Option<Stamp> {
    stamp_of(fields.next()?)
}

// An add by the tree, of its fields.
fn add_by_tree(fields: &mut SplitWhitespace<'_>) -> Option<Command> {
    let added = path(fields)?;
    Some(Command::AddM {
        value: value(&added, fields)?,
        parent: path(fields)?,
        path: added,
    })
}

// An evict to the tree, of its fields.
fn evict_to_tree(fields: &mut SplitWhitespace<'_>) -> Option<Command> {
    Some(Command::EvictM {
        path: path(fields)?,
        parent: path(fields)?,
    })
}

// An absence, of its fields.
fn absent(fields: &mut SplitWhitespace<'_>) -> Option<Command> {
    Some(Command::Absent {
        path: path(fields)?,
        parent: path(fields)?,
    })
}

// An add by a stamp, of its fields.
fn add_by_stamp(fields: &mut SplitWhitespace<'_>) -> Option<Command> {
    let added = path(fields)?;
    Some(Command::AddB {
        value: value(&added, fields)?,
        stamp: stamp(fields)?,
        verifier: verifier_of(fields.next()?)?,
        path: added,
    })
}

// An evict under a stamp, of its fields.
fn evict_under_stamp(fields: &mut SplitWhitespace<'_>) -> Option<Command> {
    Some(Command::EvictB {
        path: path(fields)?,
        stamp: stamp(fields)?,
    })
}

// An evict under a stamp of what the tree had, of its fields.
fn evict_from_tree(fields: &mut SplitWhitespace<'_>) -> Option<Command> {
    Some(Command::EvictBM {
        path: path(fields)?,
        parent: path(fields)?,
        stamp: stamp(fields)?,
    })
}

// A get, of its fields.
fn get(fields: &mut SplitWhitespace<'_>) -> Option<Command> {
    let asked = path(fields)?;
    Some(Command::Get {
        value: value(&asked, fields)?,
        path: asked,
    })
}

// A put, of its fields.
fn put(fields: &mut SplitWhitespace<'_>) -> Option<Command> {
    let asked = path(fields)?;
    Some(Command::Put {
        value: value(&asked, fields)?,
        path: asked,
    })
}
