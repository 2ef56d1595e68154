//! Bundles that were written out by hand, with the report and the status that each must have.
use crate::running::assert_cases;

// Bundles of one verifier.
const WHOLE_BUNDLES: &str = "\
== the first vector
cache 128
frames 96
addM /0 empty root
evictBM /0 root 0.1
addM /1 empty root
evictBM /1 root 0.2
next
addB /0 empty 0.1 v0
evictB /0 1.2
addB /1 empty 0.2 v0
evictB /1 1.4
next
-> 0
epoch 0 certified 0
done 1
== a put and a get
addM 5 none root
put 5 6162
evictM 5 root
addM 5 6162 root
get 5 6162
next
next
-> 0
epoch 0 certified 2
0.0 v0 put 5 6162
0.0 v0 get 5 6162
done 1
== a split and back
addM 5 none root
addM /0 empty root
evictM 5 /0
evictM /0 root
next
next
-> 0
epoch 0 certified 0
done 1
== added twice
addM 5 none root
put 5 6162
evictBM 5 root 0.1
addB 5 6162 0.1 v0
evictB 5 0.3
addB 5 6162 0.1 v0
next
next
-> 9
epoch 0 unbalanced added 2 evicted 2
== a log that is cut
addM 5 none root
bytes 07
-> 8
refused v0 command 1 Truncated
== no command
bytes 0a
-> 8
refused v0 command 0 Malformed
== an absence that is cut
bytes 09
-> 8
refused v0 command 0 Truncated
== a refusal goes before a bad frame
bytes 0a
raw 000000000000
-> 8
refused v0 command 0 Malformed
== a frame of no bytes
raw 000000000000
-> 7
bad bundle at byte 18
== frames of one byte
frames 1
addM 5 none root
put 5 6162
evictM 5 root
addM 5 6162 root
get 5 6162
next
next
-> 0
epoch 0 certified 2
0.0 v0 put 5 6162
0.0 v0 get 5 6162
done 1
";

#[test]
fn whole_bundles_have_their_reports(rt: HostRuntime) {
    assert_cases(&rt, rt.alloc(), WHOLE_BUNDLES, 10);
}

// Bundles of two verifiers.
const MANY_VERIFIERS: &str = "\
== a record goes from one verifier to another
verifiers 2
addM 5 none root
put 5 6162
evictBM 5 root 0.1
next
addB 5 63 0.3 v1
get 5 63
next
log 1
addB 5 6162 0.1 v0
get 5 6162
put 5 63
evictB 5 0.3
next
next
-> 0
epoch 0 certified 3
0.0 v0 put 5 6162
0.2 v1 get 5 6162
0.2 v1 put 5 63
done 1
== one element is added by two verifiers
verifiers 2
addM 5 none root
put 5 6162
evictBM 5 root 0.1
addB 5 6162 0.1 v0
get 5 6162
next
next
log 1
addB 5 6162 0.1 v0
put 5 6163
next
next
-> 9
epoch 0 unbalanced added 2 evicted 1
== an epoch that one verifier has not sealed
verifiers 2
next
next
log 1
next
-> 0
done 0
== the second log is refused
verifiers 2
next
next
log 1
bytes 0a
-> 8
refused v1 command 0 Malformed
== the lowest refused log is named
verifiers 2
bytes 0a
log 1
bytes 0a
-> 8
refused v0 command 0 Malformed
== two verifiers with empty logs
verifiers 2
-> 0
done 0
";

#[test]
fn many_verifiers_have_one_report(rt: HostRuntime) {
    assert_cases(&rt, rt.alloc(), MANY_VERIFIERS, 6);
}

// Keys without a record: an absence is a get that answers none.
const ABSENT_KEYS: &str = "\
== a key that no verifier ever had
absent 5 root
next
next
-> 0
epoch 0 certified 1
0.0 v0 get 5 none
done 1
== a key that is there
addM 5 none root
absent 5 root
-> 8
refused v0 command 1 Present
== a key beside one that is there
addM 5 none root
absent 7 root
next
next
-> 0
epoch 0 certified 1
0.0 v0 get 7 none
done 1
== a key that was put
absent 5 root
addM 5 none root
put 5 6162
absent 5 root
-> 8
refused v0 command 3 Present
== a key that waits with its stamp
addM 5 none root
evictBM 5 root 0.1
absent 5 root
-> 8
refused v0 command 2 Present
== under a parent that verifier 0 alone has
verifiers 2
absent 5 root
log 1
absent 5 root
-> 8
refused v1 command 0 ParentNotCached
";

#[test]
fn absent_keys_are_gets_that_answer_none(rt: HostRuntime) {
    assert_cases(&rt, rt.alloc(), ABSENT_KEYS, 6);
}

// Refusals beside those of the lying logs.
const REFUSED_COMMANDS: &str = "\
== the root is not added
addM root empty root
-> 8
refused v0 command 0 IsRoot
== a parent that is not there
addM 5 none /0
-> 8
refused v0 command 0 ParentNotCached
== another digest under a key
addM 5 none root
put 5 6162
evictM 5 root
addM 5 6261 root
get 5 6261
next
next
-> 8
refused v0 command 3 WrongDigest
== a split hands its kid on
addM 5 none root
addM /0 empty root
evictM /0 root
-> 8
refused v0 command 2 HasChild
== a get of another value
addM 5 none root
put 5 6162
evictM 5 root
addM 5 6162 root
get 5 6163
next
next
-> 8
refused v0 command 4 WrongValue
";

#[test]
fn other_commands_are_refused(rt: HostRuntime) {
    assert_cases(&rt, rt.alloc(), REFUSED_COMMANDS, 5);
}
