//! Checks under digests that collide at will.
use crate::running::{assert_ends, by, bytes_of, cases_in, checked};
use bundle_rows::Case;
use record_hash::ToyDigests;
use std::alloc::Global;
use std::process::Abort;
use std::thread::Threads;

// What is certified is not serial where digests or sums collide; a wrong number of elements still tells.
const COLLISIONS: &str = "\
== a digest that collides
addM 5 none root
put 5 6162
evictM 5 root
addM 5 6261 root
get 5 6261
next
next
-> 0
epoch 0 certified 2
0.0 v0 put 5 6162
0.0 v0 get 5 6261
done 1
== a sum that collides
addM 5 none root
put 5 6162
evictBM 5 root 0.1
addB 5 6261 0.1 v0
get 5 6261
next
next
-> 0
epoch 0 certified 2
0.0 v0 put 5 6162
0.2 v0 get 5 6261
done 1
== added twice
addM 5 none root
put 5 6162
evictBM 5 root 0.1
addB 5 6162 0.1 v0
evictB 5 0.3
addB 5 6162 0.1 v0
next
next
-> 9
epoch 0 unbalanced added 2 evicted 2
";

// The case has its report and status.
fn assert_collides<R: Threads + Sync + Abort>(rt: &R, alloc: Global, case: &Case<'_>) {
    let bytes = bytes_of(rt, alloc, case);
    let ended = checked(rt, alloc, &ToyDigests, 1 << 40, &bytes, by(7));
    let report = case.report.as_bytes();
    assert_ends(rt, case.label, 7, &ended, report, case.status);
}

#[test]
fn digests_that_collide_certify_what_is_not_serial(rt: HostRuntime) {
    for case in &cases_in(&rt, rt.alloc(), COLLISIONS, 3) {
        assert_collides(&rt, rt.alloc(), case);
    }
}
