//! Logs by which a host lies to a verifier: the report of a check, and the status, however the logs come in frames.
use crate::framed::Framed;
use crate::running::{assert_bundle, assert_cases, bytes_of, cases_in, same};
use bundle_rows::Case;
use std::alloc::Global;
use std::process::Abort;
use std::sync::Wait;
use std::thread::Threads;

// Each report is this one line; an audit shows nothing, and then the same line.
const LYING_LOGS: &str = "\
== the root is not evicted
evictM root root
-> 8
refused v0 command 0 IsRoot
== a path comes twice
addM 5 initial root
addM 5 initial root
-> 8
refused v0 command 1 AlreadyCached
== a cache of four
addM 5 initial root
addM 9223372036854775808 initial root
addM /0 initial root
addM 7 initial /0
-> 8
refused v0 command 3 CacheFull
== a get of nothing
get 5 none
-> 8
refused v0 command 0 NotCached
== the root is in the cache of verifier 0 alone
verifiers 2
log 1
addM 5 initial root
-> 8
refused v1 command 0 ParentNotCached
== not below its parent
addM 5 initial root
addM 7 initial 5
-> 8
refused v0 command 1 NotBelow
== a pointer elsewhere
addM 5 initial root
addM 7 initial root
-> 8
refused v0 command 1 Foreign
== a first value
addM 5 61 root
-> 8
refused v0 command 0 NotInitial
== a deferred pointer
addM 5 initial root
evictBM 5 root 0.1
addM 5 initial root
-> 8
refused v0 command 2 Deferred
== another digest
addM 5 initial root
put 5 6162
evictM 5 root
addM 5 initial root
-> 8
refused v0 command 3 WrongDigest
== no child
addM 5 initial root
addM /0 initial root
evictM 5 root
-> 8
refused v0 command 2 NotChild
== a child in the cache
addM /0 initial root
addM 5 initial /0
evictM /0 root
-> 8
refused v0 command 2 HasChild
== another hold
addM 5 initial root
evictB 5 0.1
-> 8
refused v0 command 1 WrongHold
== no such verifier
addB 5 initial 0.1 v1
-> 8
refused v0 command 0 NoSuchVerifier
== an epoch ahead
addB 5 initial 1.1 v0
-> 8
refused v0 command 0 BadEpoch
== a stamp at the clock
addM 5 initial root
evictBM 5 root 0.0
-> 8
refused v0 command 1 StampNotLater
== the counter ends
end 1
addM 5 initial root
evictBM 5 root 0.1
addB 5 initial 0.1 v0
-> 8
refused v0 command 2 ClockEnd
== the epochs end
first 4294967295
next
-> 8
refused v0 command 0 ClockEnd
== a put of a node
put root initial
-> 8
refused v0 command 0 NotData
== evicted and not added
addM 5 initial root
evictBM 5 root 0.1
next
next
addB 5 initial 0.1 v0
-> 9
epoch 0 unbalanced added 0 evicted 1
== added otherwise
addM 5 initial root
put 5 6162
evictBM 5 root 0.1
addB 5 6161 0.1 v0
next
next
-> 9
epoch 0 unbalanced added 1 evicted 1
== the lowest refused log is named, whichever came first
verifiers 2
log 1
get 5 none
log 0
get 5 none
-> 8
refused v0 command 0 NotCached
";

#[test]
fn lying_logs_are_told(rt: HostRuntime) {
    assert_cases(&rt, rt.alloc(), LYING_LOGS, 22);
}

// The case's report stands wherever its frames are cut in two, and where they are cut in bytes.
fn assert_cut<R: Threads + Wait + Sync + Abort>(rt: &R, alloc: Global, case: &Case<'_>) {
    let bytes = bytes_of(rt, alloc, case);
    let framed = Framed::of(rt, alloc, &bytes);
    for at in 1..framed.longest() {
        assert_bundle(rt, alloc, case, &framed.cut_at(rt, alloc, at));
    }
    let cut = framed.cut_in(rt, alloc, framed.longest());
    assert_bundle(rt, alloc, case, &cut);
}

#[test]
fn lying_logs_are_told_however_they_are_cut(rt: HostRuntime) {
    for case in &cases_in(&rt, rt.alloc(), LYING_LOGS, 22) {
        assert_cut(&rt, rt.alloc(), case);
    }
}

// Logs of two verifiers, of which one lies or both do. Each can be cut in four pieces. The slow program has the same reports.
const TWO_LOGS: &str = "\
== the root is in the cache of verifier 0 alone
verifiers 2
addM 5 none root
put 5 61
next
next
log 1
addM 5 initial root
-> 8
refused v1 command 0 ParentNotCached
== both get what is not there
verifiers 2
get 5 none
log 1
get 5 none
-> 8
refused v0 command 0 NotCached
== the lower one is named though it is refused later
verifiers 2
addM 5 none root
put 5 61
get 5 62
log 1
get 5 none
-> 8
refused v0 command 2 WrongValue
== the lower one is named though it is refused at its end alone
verifiers 2
addM 5 none root
bytes 07
log 1
get 5 none
-> 8
refused v0 command 1 Truncated
== one element is added by both
verifiers 2
addM 5 none root
put 5 6162
evictBM 5 root 0.1
addB 5 6162 0.1 v0
get 5 6162
next
next
log 1
addB 5 6162 0.1 v0
put 5 6163
next
next
-> 9
epoch 0 unbalanced added 2 evicted 1
== verifier 1 adds another value than verifier 0 evicted
verifiers 2
addM 5 none root
put 5 6162
evictBM 5 root 0.1
next
next
log 1
addB 5 6261 0.1 v0
get 5 6261
next
next
-> 9
epoch 0 unbalanced added 1 evicted 1
== an unbalanced epoch goes before a refusal behind it
verifiers 2
addM 5 none root
evictBM 5 root 0.1
next
next
log 1
next
next
get 5 none
-> 9
epoch 0 unbalanced added 0 evicted 1
== where the refused verifier has not sealed the epoch, its refusal is told
verifiers 2
addM 5 none root
evictBM 5 root 0.1
next
next
log 1
next
get 5 none
-> 8
refused v1 command 1 NotCached
";

// The bundles of a case whose frames are cut in four pieces each, which come in any order.
fn in_any_order(rt: &impl Abort, alloc: Global, case: &Case<'_>) -> Vec<Vec<u8>> {
    let bytes = bytes_of(rt, alloc, case);
    let pieces = Framed::of(rt, alloc, &bytes).cut_in(rt, alloc, 4);
    Framed::of(rt, alloc, &pieces).in_any_order(rt, alloc)
}

// The case's report stands in whatever order its frames come.
fn assert_any_order<R: Threads + Wait + Sync + Abort>(rt: &R, alloc: Global, case: &Case<'_>) {
    let bundles = in_any_order(rt, alloc, case);
    // Four pieces out of eight are those of verifier 0.
    same(rt, case.label, 0, &bundles.len(), &70);
    for bundle in &bundles {
        assert_bundle(rt, alloc, case, bundle);
    }
}

#[test]
fn two_logs_are_told_in_whatever_order_their_frames_come(rt: HostRuntime) {
    for case in &cases_in(&rt, rt.alloc(), TWO_LOGS, 8) {
        assert_any_order(&rt, rt.alloc(), case);
    }
}
