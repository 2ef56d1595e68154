//! An audit of a bundle under digests that collide at will, which shows two strings.
use crate::outcome::{Fault, Outcome};
use bundle_rows::bundle_of;
use fastver_top::audit_text;
use fv_outside::{MemorySink, MemorySource};
use record_hash::ToyDigests;
use std::alloc::Global;

// Another value with the same digest comes back.
const CLASH: &str = "\
addM 5 none root
put 5 6162
evictM 5 root
addM 5 6261 root
get 5 6261
next
next
";

// What `tools/run slow.fastver --toy audit` prints of it.
const SHOWN: &str = "\
strings 01026162 01026261
done 1
";

// The exit statuses of want of memory and of an exhibit.
const MEMORY: u8 = 2;

const EXHIBIT: u8 = 13;

/// An audit that shows two strings.
pub fn exhibit(alloc: Global) -> Result<Outcome, Fault> {
    let bundle = bundle_of(alloc, CLASH)?;
    let (text, status) = audited(alloc, &bundle)?;
    if status == MEMORY {
        exhibit_again(alloc, &bundle, &text)
    } else {
        look(&text, status, Outcome::Made)
    }
}

// The same audit, for which memory was wanting, where nothing was written.
fn exhibit_again(alloc: Global, bundle: &[u8], text: &MemorySink) -> Result<Outcome, Fault> {
    if !text.bytes().is_empty() {
        return Err(Fault::Amiss("a text where memory was wanting"));
    }
    let (text, status) = audited(alloc, bundle)?;
    look(&text, status, Outcome::MadeAgain)
}

// What an audit of a bundle writes, and its exit status.
fn audited(alloc: Global, bundle: &[u8]) -> Result<(MemorySink, u8), Fault> {
    let mut source = MemorySource::new(alloc, bundle, 50, &[])?;
    let mut out = MemorySink::new(alloc, 100, 10, &[])?;
    let status = audit_text(alloc, &ToyDigests, 1 << 40, &mut source, &mut out);
    Ok((out, status.number()))
}

// How it was made, where the strings are shown, and the status says so.
fn look(text: &MemorySink, status: u8, outcome: Outcome) -> Result<Outcome, Fault> {
    if text.bytes() == SHOWN.as_bytes() && status == EXHIBIT {
        Ok(outcome)
    } else {
        Err(Fault::Amiss("another audit"))
    }
}
