//! What is exhibited of a log, under digests that collide at will.
use crate::running::same;
use bundle_rows::log_of;
use collision_exhibit::{Exhibit, audit};
use lamport_clocks::Header;
use record_hash::ToyDigests;
use std::alloc::Global;
use std::process::Abort;

// What was put comes back by its digest.
const CLEAN: &str = "\
addM 5 none root
put 5 6162
evictM 5 root
addM 5 6162 root
get 5 6162
next
next
";

// Another value with the same digest comes back.
const CLASH: &str = "\
addM 5 none root
put 5 6162
evictM 5 root
addM 5 6261 root
get 5 6261
next
next
";

// Another element with the same lanes comes back.
const UNEVEN: &str = "\
addM 5 none root
put 5 6162
evictBM 5 root 0.1
addB 5 6261 0.1 v0
get 5 6261
next
next
";

// What an audit of this log of one verifier shows over so many epochs.
fn audited(rt: &impl Abort, alloc: Global, rows: &str, epochs: u64) -> Exhibit {
    let header = Header::by_path(1, 4, 0, 0xff_ffff);
    let logs = vec![in alloc; log_of(alloc, rows).expect(rt, "memory")].expect(rt, "memory");
    audit(alloc, &ToyDigests, &header, &logs, epochs).expect(rt, "memory")
}

// The audit shows nothing.
fn assert_clean(rt: &impl Abort, shown: &Exhibit) {
    assert!(rt; matches!(shown, Exhibit::Clean));
}

// The audit shows these two strings.
fn assert_strings(rt: &impl Abort, shown: &Exhibit, evicted: &[u8], added: &[u8]) {
    match shown {
        Exhibit::Strings(first, second) => {
            same(rt, "evicted", 0, &first.as_slice(), &evicted);
            same(rt, "added", 0, &second.as_slice(), &added);
        }
        _ => panic!(rt; "no strings"),
    }
}

// The audit shows the two multisets of an epoch, of one element each.
fn assert_multisets(rt: &impl Abort, shown: &Exhibit, epoch: u32) {
    match shown {
        Exhibit::Multisets(uneven, added, evicted) => {
            same(rt, "epoch", 0, uneven, &epoch);
            same(rt, "added", 0, &added.as_slice().len(), &1);
            same(rt, "evicted", 0, &evicted.as_slice().len(), &1);
        }
        _ => panic!(rt; "no multisets"),
    }
}

#[test]
fn logs_are_audited(rt: HostRuntime) {
    assert_clean(&rt, &audited(&rt, rt.alloc(), CLEAN, 1));
    assert_clean(&rt, &audited(&rt, rt.alloc(), CLASH, 0));
    let clash = audited(&rt, rt.alloc(), CLASH, 1);
    assert_strings(&rt, &clash, b"\x01\x02ab", b"\x01\x02ba");
    let uneven = audited(&rt, rt.alloc(), UNEVEN, 1);
    assert_multisets(&rt, &uneven, 0);
}
