//! The calls by their names, and what is told of a try.
use crate::outcome::{Fault, Outcome};
use crate::{audits, logs, moves, plans, tables};
use std::alloc::{AllocError, Global};

/// What comes of a line of the input.
pub fn told(alloc: Global, line: &str) -> &'static str {
    let Some((name, count)) = line.split_once(' ') else {
        return "no call and number";
    };
    let Ok(count) = count.parse() else {
        return "no number";
    };
    if spend(alloc, count).is_err() {
        return "refused too early";
    }
    match tried(alloc, name) {
        Ok(Outcome::Made) => "not refused",
        Ok(Outcome::MadeAgain) => "refused, all as before",
        Err(Fault::Memory) => "refused before the call",
        Err(Fault::Amiss(what)) => what,
    }
}

// Makes so many allocations, to no use.
fn spend(alloc: Global, count: u32) -> Result<(), AllocError> {
    for _ in 0..count {
        let mut bytes = Vec::new(alloc);
        bytes.push(0u8)?;
    }
    Ok(())
}

// Tries a call once.
fn tried(alloc: Global, name: &str) -> Result<Outcome, Fault> {
    match name {
        "fork" => plans::fork(alloc),
        "split" => plans::split(alloc),
        "make" => tables::make(alloc),
        "attempt" => tables::attempt(alloc),
        "away" => moves::away(alloc),
        "back" => moves::back(alloc),
        "exhibit" => audits::exhibit(alloc),
        "write" => logs::write(alloc),
        _ => Err(Fault::Amiss("no call of this name")),
    }
}
