//! Logs with nodes and splits, and the reports that the slow program finds for them.
use crate::running::assert_cases;

// Keys below nodes of 1, 2, 60 and 61 bits.
const TREES: &str = "\
== no value, no bytes and no value are put
addM 9223372036854775808 none root
put 9223372036854775808 none
addM 0/60 empty root
addM 0/61 empty 0/60
put 9223372036854775808 .
put 9223372036854775808 none
evictM 0/61 0/60
addM /0 empty root
next
next
-> 0
epoch 0 certified 3
0.0 v0 put 9223372036854775808 none
0.0 v0 put 9223372036854775808 .
0.0 v0 put 9223372036854775808 none
done 1
== a key is read, and leaves under a node that was put in above it
first 7
addM 0/60 empty root
addM 18446744073709551615 none root
evictM 0/60 root
get 18446744073709551615 none
addM /0 empty root
addM /11 empty root
evictM 18446744073709551615 /11
evictM /0 root
next
next
-> 0
epoch 7 certified 1
7.0 v0 get 18446744073709551615 none
done 1
== a node of 60 bits comes between the root and one of 61
cache 5
addM 0/61 empty root
addM 5 none 0/61
addM 0/60 empty root
addM /11 empty root
get 5 none
put 5 none
evictM /11 root
evictM 5 0/61
next
next
-> 0
epoch 0 certified 2
0.0 v0 get 5 none
0.0 v0 put 5 none
done 1
== nodes leave one by one from below, the last under a node that was put in above it
addM 0/60 empty root
addM 5 none 0/60
addM 0/61 empty 0/60
evictM 5 0/61
addM /11 empty root
evictM 0/61 0/60
addM /0 empty root
evictM 0/60 /0
next
next
-> 0
epoch 0 certified 0
done 1
== a key leaves, and then the node that was put in above it
cache 5 first 7
addM 9223372036854775808 none root
addM 7 none root
put 9223372036854775808 none
addM 0/61 empty root
evictM 7 0/61
evictM 0/61 root
addM /0 empty root
get 9223372036854775808 none
next
next
-> 0
epoch 7 certified 2
7.0 v0 put 9223372036854775808 none
7.0 v0 get 9223372036854775808 none
done 1
== a node is put in above one without a key, beside a key that is read and written
cache 5 first 7
addM /11 empty root
addM /0 empty root
addM 7 none /0
get 7 none
addM /1 empty root
get 7 none
put 7 none
evictM 7 /0
next
next
-> 0
epoch 7 certified 3
7.0 v0 get 7 none
7.0 v0 get 7 none
7.0 v0 put 7 none
done 1
== a key comes back by its digest, and two nodes are put in above it
cache 5
addM 7 none root
evictM 7 root
addM 7 none root
addM 0/60 empty root
addM 18446744073709551615 none root
get 18446744073709551615 none
get 18446744073709551615 none
addM /0 empty root
next
next
-> 0
epoch 0 certified 2
0.0 v0 get 18446744073709551615 none
0.0 v0 get 18446744073709551615 none
done 1
== a node is put in above a key that is out, and another key comes back
first 7
addM 0/60 empty root
addM 9223372036854775808 none root
addM 5 none 0/60
evictM 9223372036854775808 root
evictM 5 0/60
addM 0/61 empty 0/60
addM 9223372036854775808 none root
get 9223372036854775808 none
next
next
-> 0
epoch 7 certified 1
7.0 v0 get 9223372036854775808 none
done 1
== no bytes are put and read, below three nodes
cache 5
addM /1 empty root
addM 0/60 empty root
addM 0/61 empty 0/60
addM 7 none 0/61
put 7 .
get 7 .
evictM /1 root
addM /0 empty root
next
next
-> 0
epoch 0 certified 2
0.0 v0 put 7 .
0.0 v0 get 7 .
done 1
== two nodes are put in above a key, and another key comes back
cache 8 first 7
addM 9223372036854775808 none root
evictM 9223372036854775808 root
addM 7 none root
addM 0/61 empty root
addM 0/60 empty root
addM 9223372036854775808 none root
get 7 none
get 9223372036854775808 none
next
next
-> 0
epoch 7 certified 2
7.0 v0 get 7 none
7.0 v0 get 9223372036854775808 none
done 1
== nodes leave and one comes back by its digest; then a key leaves that is not there
addM /1 empty root
addM 0/60 empty root
addM /0 empty root
evictM /1 root
evictM 0/60 /0
evictM /0 root
addM /0 0/60:96a296d224f285c67bee93c30f8a309157f0daa35dc5b87e410b78630a09cfc7,- root
addM /1 empty root
evictM 7 0/61
next
next
-> 8
refused v0 command 8 NotCached
== a node that is there is added
addM 18446744073709551615 none root
addM 5 none root
evictM 5 root
put 18446744073709551615 6263
addM 0/60 empty root
addM /11 empty root
evictM 18446744073709551615 /11
addM 0/61 empty 0/60
addM 0/61 empty 0/60
next
next
-> 8
refused v0 command 8 AlreadyCached
== a node leaves under one that is not there
cache 5
addM 9223372036854775808 none root
addM /1 empty root
addM 7 none root
addM 18446744073709551615 none /1
evictM 7 root
addM 0/61 empty root
put 18446744073709551615 6263
put 18446744073709551615 61
evictM 0/61 /11
next
next
-> 8
refused v0 command 8 ParentNotCached
== a key leaves that is not there
cache 8
addM 0/60 empty root
addM 7 none 0/60
put 7 61
addM 0/61 empty 0/60
addM /11 empty root
put 7 none
put 7 none
addM /1 empty root
evictM 18446744073709551615 root
next
next
-> 8
refused v0 command 8 NotCached
== a key is added under a node that is not there
cache 8
addM 9223372036854775808 none root
addM 5 none root
put 5 none
get 5 none
put 9223372036854775808 61
put 5 61
get 5 61
addM /1 empty root
addM 18446744073709551615 7a7a /0
next
next
-> 8
refused v0 command 8 ParentNotCached
== a fifth entry in a cache of four
addM 9223372036854775808 none root
evictM 9223372036854775808 root
addM 0/61 empty root
evictM 0/61 root
addM 9223372036854775808 none root
addM /1 empty root
put 9223372036854775808 .
addM 0/61 empty root
addM /0 empty 0/61
next
next
-> 8
refused v0 command 8 CacheFull
== a node that is there is added under another
cache 8
addM 0/61 empty root
addM 5 none 0/61
addM /1 empty root
addM 18446744073709551615 none /1
addM 9223372036854775808 none /1
get 5 none
evictM 9223372036854775808 /1
put 18446744073709551615 6263
addM 0/61 empty /1
next
next
-> 8
refused v0 command 8 AlreadyCached
== a key is added where the pointer leads to another key
cache 8
addM 9223372036854775808 none root
put 9223372036854775808 none
addM 5 none root
evictM 5 root
evictM 9223372036854775808 root
addM 0/61 empty root
addM 5 none 0/61
addM 9223372036854775808 none root
addM 7 none 0/61
next
next
-> 8
refused v0 command 8 Foreign
== a node leaves with a key below it in the cache
cache 8
addM 9223372036854775808 none root
addM 7 none root
evictM 9223372036854775808 root
addM 0/60 empty root
addM /1 empty root
put 7 6263
addM 9223372036854775808 none /1
get 9223372036854775808 none
evictM /1 root
next
next
-> 8
refused v0 command 8 HasChild
== a key comes back under a node that it is not below
cache 5
addM /1 empty root
addM 9223372036854775808 none /1
addM 5 none root
addM 18446744073709551615 none /1
get 18446744073709551615 none
get 18446744073709551615 none
put 5 none
evictM 5 root
addM 5 none /1
next
next
-> 8
refused v0 command 8 NotBelow
== a sixth entry in a cache of five
cache 5
addM 7 none root
evictM 7 root
addM /1 empty root
addM 9223372036854775808 none /1
put 9223372036854775808 none
addM 7 none root
addM /0 empty root
get 7 none
addM 0/60 empty 0/60
next
next
-> 8
refused v0 command 8 CacheFull
== a node is added at the root, whose pointer leads to a node of one bit
addM /0 empty root
addM 7 none /0
addM /1 empty root
evictM /1 root
addM /1 empty root
get 7 none
get 7 none
evictM /1 root
addM 0/61 empty root
next
next
-> 8
refused v0 command 8 Foreign
";

#[test]
fn nodes_and_splits_have_their_reports(rt: HostRuntime) {
    assert_cases(&rt, rt.alloc(), TREES, 22);
}
