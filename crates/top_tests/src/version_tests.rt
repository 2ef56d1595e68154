//! Bundles of version 2, whose commands name slots, with the report and the status that each must have.
use crate::running::assert_cases;

// The second is the first as bytes; in the next two a slot is another one than there.
const SLOTS: &str = "\
== a put and a get
version 2
addM s1 5 none s0
put s1 6162
evictM s1 s0
addM s1 5 6162 s0
get s1 6162
next
next
-> 0
epoch 0 certified 2
0.0 v0 put 5 6162
0.0 v0 get 5 6162
done 1
== a put and a get in bytes
version 2
bytes 010001400000000000000005000000
bytes 07000101026162
bytes 0200010000
bytes 010001400000000000000005010261620000
bytes 06000101026162
bytes 0808
-> 0
epoch 0 certified 2
0.0 v0 put 5 6162
0.0 v0 get 5 6162
done 1
== an add into a slot that is taken
version 2
addM s1 5 none s0
put s1 6162
evictM s1 s0
addM s0 5 6162 s0
get s1 6162
next
next
-> 8
refused v0 command 3 SlotTaken
== a get of an empty slot
version 2
addM s1 5 none s0
put s1 6162
evictM s1 s0
addM s1 5 6162 s0
get s2 6162
next
next
-> 8
refused v0 command 4 SlotEmpty
== a path in two slots by its digest
version 2
addM s1 5 none s0
addM s2 5 none s0
-> 8
refused v0 command 1 HasChild
== a path in two slots by its stamp
version 2
addM s1 5 none s0
evictBM s1 s0 0.1
addB s1 5 none 0.1 v0
addB s2 5 none 0.1 v0
next
next
-> 9
epoch 0 unbalanced added 2 evicted 1
== a slot past the cache
version 2
addM s4 5 none s0
-> 8
refused v0 command 0 CacheFull
== the last slot of the greatest cache
version 2 cache 65536
addM s65535 5 none s0
put s65535 6162
evictM s65535 s0
addM s65534 5 6162 s0
get s65534 6162
get s65535 6162
-> 8
refused v0 command 5 SlotEmpty
== a record goes from one verifier to another
version 2 verifiers 2
addM s1 5 none s0
put s1 6162
evictBM s1 s0 0.1
next
addB s3 5 63 0.3 v1
get s3 63
next
log 1
addB s0 5 6162 0.1 v0
get s0 6162
put s0 63
evictB s0 0.3
next
next
-> 0
epoch 0 certified 3
0.0 v0 put 5 6162
0.2 v1 get 5 6162
0.2 v1 put 5 63
done 1
";

#[test]
fn bundles_of_slots_have_their_reports(rt: HostRuntime) {
    assert_cases(&rt, rt.alloc(), SLOTS, 9);
}

// A log of one version in a bundle of the other, versions that there are not, and keys as no version has them.
const OTHER_VERSIONS: &str = "\
== paths where slots are named
version 2
addM 5 none root
-> 8
refused v0 command 0 Malformed
== slots where paths are named
addM s1 5 none s0
-> 8
refused v0 command 0 Malformed
== a fourth version
version 4
next
-> 7
bad bundle at byte 0
== no version
version 0
next
-> 7
bad bundle at byte 0
== keys of 65 bits
version 3 bits 65
next
-> 7
bad bundle at byte 0
";

#[test]
fn a_log_is_of_its_bundles_version(rt: HostRuntime) {
    assert_cases(&rt, rt.alloc(), OTHER_VERSIONS, 5);
}
