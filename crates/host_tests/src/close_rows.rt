//! The rows of closes with hot records, as `tools/slow/plans.py` prints them for the same script.

// What is tried, the threshold, requests and closes of two shards, and the rows of the log.
pub(crate) const CASES: [(&str, u32, &str, &str); 6] = [
    (
        "a key becomes hot, is touched in one epoch, and comes back",
        2,
        "
put 5 6162
get 5
epoch
get 5
epoch
epoch
get 5
",
        "
addB /0 -,- 0.1 v0
addM 5 none /0
put 5 6162
evictM 5 /0
evictB /0 0.4
addB /0 5:c6,- 0.4 v0
addM 5 6162 /0
get 5 6162
evictM 5 /0
evictB /0 0.6
next
addB /0 5:c6,- 0.6 v0
addM 5 6162 /0
evictBM 5 /0 1.2
evictB /0 1.3
addB /1 -,- 0.2 v0
evictB /1 1.5
addB 5 6162 1.2 v0
get 5 6162
evictB 5 1.7
next
addB 5 6162 1.7 v0
evictB 5 2.2
addB /0 5?c6,- 1.3 v0
evictB /0 2.4
addB /1 -,- 1.5 v0
evictB /1 2.6
next
addB /0 5?c6,- 2.4 v0
addB 5 6162 2.2 v0
evictM 5 /0
evictB /0 3.3
addB /1 -,- 2.6 v0
evictB /1 3.5
addB /0 5:c6,- 3.3 v0
addM 5 6162 /0
get 5 6162
evictM 5 /0
evictB /0 3.7
",
    ),
    (
        "a fifth key is left out",
        1,
        "
put 1 01
get 2
put 9223372036854775809 02
get 3
get 4
get 5
epoch
get 5
",
        "
addB /0 -,- 0.1 v0
addM 1 none /0
put 1 01
evictM 1 /0
evictB /0 0.4
addB /0 1:03,- 0.4 v0
addM 0/62 -,- /0
addM 2 none 0/62
get 2 none
evictM 2 0/62
evictM 0/62 /0
evictB /0 0.6
addB /1 -,- 0.2 v0
addM 9223372036854775809 none /1
put 9223372036854775809 02
evictM 9223372036854775809 /1
evictB /1 0.8
addB /0 0/62:88,- 0.6 v0
addM 0/62 1:03,2:00 /0
addM 2/63 -,- 0/62
addM 3 none 2/63
get 3 none
evictM 3 2/63
evictM 2/63 0/62
evictM 0/62 /0
evictB /0 0.10
addB /0 0/62:010e,- 0.10 v0
addM 0/61 -,- /0
addM 4 none 0/61
get 4 none
evictM 4 0/61
evictM 0/61 /0
evictB /0 0.12
addB /0 0/61:93,- 0.12 v0
addM 0/61 0/62:010e,4:00 /0
addM 4/63 -,- 0/61
addM 5 none 4/63
get 5 none
evictM 5 4/63
evictM 4/63 0/61
evictM 0/61 /0
evictB /0 0.14
next
addB /0 0/61:011d,- 0.14 v0
addM 0/61 0/62:010e,4/63:8b /0
addM 0/62 1:03,2/63:87 0/61
addM 1 01 0/62
evictBM 1 0/62 1.2
evictM 0/62 0/61
evictM 0/61 /0
addM 0/61 0/62:010f,4/63:8b /0
addM 0/62 1?03,2/63:87 0/61
addM 2/63 2:00,3:00 0/62
addM 2 none 2/63
evictBM 2 2/63 1.3
evictM 2/63 0/62
evictM 0/62 0/61
evictM 0/61 /0
addM 0/61 0/62:0110,4/63:8b /0
addM 0/62 1?03,2/63:88 0/61
addM 2/63 2?00,3:00 0/62
addM 3 none 2/63
evictBM 3 2/63 1.4
evictM 2/63 0/62
evictM 0/62 0/61
evictM 0/61 /0
addM 0/61 0/62:0111,4/63:8b /0
addM 4/63 4:00,5:00 0/61
addM 4 none 4/63
evictBM 4 4/63 1.5
evictM 4/63 0/61
evictM 0/61 /0
evictB /0 1.6
addB /1 9223372036854775809:04,- 0.8 v0
addM 9223372036854775809 02 /1
evictBM 9223372036854775809 /1 1.8
evictB /1 1.9
addB /0 0/61:0121,- 1.6 v0
addM 0/61 0/62:0111,4/63:8c /0
addM 4/63 4?00,5:00 0/61
addM 5 none 4/63
get 5 none
evictM 5 4/63
evictM 4/63 0/61
evictM 0/61 /0
evictB /0 1.11
",
    ),
    (
        "a key takes the place that another left in the same close",
        1,
        "
get 1
get 2
get 3
get 4
epoch
get 9
get 1
put 2 61
get 4
epoch
",
        "
addB /0 -,- 0.1 v0
addM 1 none /0
get 1 none
evictM 1 /0
evictB /0 0.4
addB /0 1:00,- 0.4 v0
addM 0/62 -,- /0
addM 2 none 0/62
get 2 none
evictM 2 0/62
evictM 0/62 /0
evictB /0 0.6
addB /0 0/62:85,- 0.6 v0
addM 0/62 1:00,2:00 /0
addM 2/63 -,- 0/62
addM 3 none 2/63
get 3 none
evictM 3 2/63
evictM 2/63 0/62
evictM 0/62 /0
evictB /0 0.8
addB /0 0/62:010b,- 0.8 v0
addM 0/61 -,- /0
addM 4 none 0/61
get 4 none
evictM 4 0/61
evictM 0/61 /0
evictB /0 0.10
next
addB /0 0/61:90,- 0.10 v0
addM 0/61 0/62:010b,4:00 /0
addM 0/62 1:00,2/63:87 0/61
addM 1 none 0/62
evictBM 1 0/62 1.2
evictM 0/62 0/61
evictM 0/61 /0
addM 0/61 0/62:010c,4:00 /0
addM 0/62 1?00,2/63:87 0/61
addM 2/63 2:00,3:00 0/62
addM 2 none 2/63
evictBM 2 2/63 1.3
evictM 2/63 0/62
evictM 0/62 0/61
evictM 0/61 /0
addM 0/61 0/62:010d,4:00 /0
addM 0/62 1?00,2/63:88 0/61
addM 2/63 2?00,3:00 0/62
addM 3 none 2/63
evictBM 3 2/63 1.4
evictM 2/63 0/62
evictM 0/62 0/61
evictM 0/61 /0
addM 0/61 0/62:010e,4:00 /0
addM 4 none 0/61
evictBM 4 0/61 1.5
evictM 0/61 /0
evictB /0 1.6
addB /1 -,- 0.2 v0
evictB /1 1.8
addB /0 0/61:94,- 1.6 v0
addM 0/60 -,- /0
addM 9 none 0/60
get 9 none
evictM 9 0/60
evictM 0/60 /0
evictB /0 1.10
addB 1 none 1.2 v0
get 1 none
evictB 1 1.12
addB 2 none 1.3 v0
put 2 61
evictB 2 1.14
addB 4 none 1.5 v0
get 4 none
evictB 4 1.16
next
addB 1 none 1.12 v0
evictB 1 2.2
addB 2 61 1.14 v0
evictB 2 2.4
addB 4 none 1.16 v0
evictB 4 2.6
addB /0 0/60:011c,- 1.10 v0
addM 0/60 0/61:94,9:00 /0
addM 0/61 0/62:010e,4?00 0/60
addM 0/62 1?00,2/63:89 0/61
addM 2/63 2?00,3?00 0/62
addB 3 none 1.4 v0
evictM 3 2/63
evictM 2/63 0/62
evictM 0/62 0/61
evictM 0/61 0/60
evictM 0/60 /0
addM 0/60 0/61:93,9:00 /0
addM 9 none 0/60
evictBM 9 0/60 2.9
evictM 0/60 /0
evictB /0 2.10
addB /1 -,- 1.8 v0
evictB /1 2.12
",
    ),
    (
        "a record comes back beside a fork",
        3,
        "
put 4 61
get 4
get 4
epoch
put 5 62
get 4
put 4 63
epoch
put 20 64
epoch
",
        "
addB /0 -,- 0.1 v0
addM 4 none /0
put 4 61
evictM 4 /0
evictB /0 0.4
addB /0 4:63,- 0.4 v0
addM 4 61 /0
get 4 61
evictM 4 /0
evictB /0 0.6
addB /0 4:63,- 0.6 v0
addM 4 61 /0
get 4 61
evictM 4 /0
evictB /0 0.8
next
addB /0 4:63,- 0.8 v0
addM 4 61 /0
evictBM 4 /0 1.2
evictB /0 1.3
addB /1 -,- 0.2 v0
evictB /1 1.5
addB /0 4?63,- 1.3 v0
addM 4/63 -,- /0
addM 5 none 4/63
put 5 62
evictM 5 4/63
evictM 4/63 /0
evictB /0 1.7
addB 4 61 1.2 v0
get 4 61
evictB 4 1.9
addB 4 61 1.9 v0
put 4 63
evictB 4 1.11
next
addB 4 63 1.11 v0
evictB 4 2.2
addB /0 4/63:0153,- 1.7 v0
evictB /0 2.4
addB /1 -,- 1.5 v0
evictB /1 2.6
addB /0 4/63:0153,- 2.4 v0
addM 0/59 -,- /0
addM 20 none 0/59
put 20 64
evictM 20 0/59
evictM 0/59 /0
evictB /0 2.8
next
addB /0 0/59:0153,- 2.8 v0
addM 0/59 4/63:0153,20:66 /0
addM 4/63 4?63,5:64 0/59
addB 4 63 2.2 v0
evictM 4 4/63
evictM 4/63 0/59
evictM 0/59 /0
evictB /0 3.3
addB /1 -,- 2.6 v0
evictB /1 3.5
",
    ),
    (
        "one touch is too few, and two are enough",
        2,
        "
get 5
get 6
get 6
epoch
get 5
get 6
epoch
",
        "
addB /0 -,- 0.1 v0
addM 5 none /0
get 5 none
evictM 5 /0
evictB /0 0.4
addB /0 5:00,- 0.4 v0
addM 4/62 -,- /0
addM 6 none 4/62
get 6 none
evictM 6 4/62
evictM 4/62 /0
evictB /0 0.6
addB /0 4/62:8d,- 0.6 v0
addM 4/62 5:00,6:00 /0
addM 6 none 4/62
get 6 none
evictM 6 4/62
evictM 4/62 /0
evictB /0 0.8
next
addB /0 4/62:8d,- 0.8 v0
addM 4/62 5:00,6:00 /0
addM 6 none 4/62
evictBM 6 4/62 1.2
evictM 4/62 /0
evictB /0 1.3
addB /1 -,- 0.2 v0
evictB /1 1.5
addB /0 4/62:8e,- 1.3 v0
addM 4/62 5:00,6?00 /0
addM 5 none 4/62
get 5 none
evictM 5 4/62
evictM 4/62 /0
evictB /0 1.7
addB 6 none 1.2 v0
get 6 none
evictB 6 1.9
next
addB 6 none 1.9 v0
evictB 6 2.2
addB /0 4/62:8e,- 1.7 v0
evictB /0 2.4
addB /1 -,- 1.5 v0
evictB /1 2.6
",
    ),
    (
        "one touch is enough",
        1,
        "
get 18446744073709551615
get 9223372036854775808
epoch
epoch
",
        "
addB /1 -,- 0.2 v0
addM 18446744073709551615 none /1
get 18446744073709551615 none
evictM 18446744073709551615 /1
evictB /1 0.4
addB /1 -,18446744073709551615:00 0.4 v0
addM 9223372036854775808 none /1
get 9223372036854775808 none
evictM 9223372036854775808 /1
evictB /1 0.6
next
addB /0 -,- 0.1 v0
evictB /0 1.2
addB /1 9223372036854775808:00,18446744073709551615:00 0.6 v0
addM 9223372036854775808 none /1
evictBM 9223372036854775808 /1 1.4
addM 18446744073709551615 none /1
evictBM 18446744073709551615 /1 1.5
evictB /1 1.6
next
addB /0 -,- 1.2 v0
evictB /0 2.2
addB /1 9223372036854775808?00,18446744073709551615?00 1.6 v0
addB 9223372036854775808 none 1.4 v0
evictM 9223372036854775808 /1
addB 18446744073709551615 none 1.5 v0
evictM 18446744073709551615 /1
evictB /1 2.6
",
    ),
];

// The first of these with the last key of 128 bits, in two shards of their tree: its rows by hand, with the keys, the shards and
// the counters changed.
pub(crate) const WIDE: (&str, u32, &str, &str) = (
    "a key of 128 bits becomes hot, is touched in one epoch, and comes back",
    2,
    "
put 340282366920938463463374607431768211455 6162
get 340282366920938463463374607431768211455
epoch
get 340282366920938463463374607431768211455
epoch
epoch
get 340282366920938463463374607431768211455
",
    "
addB w/1 -,- 0.2 v0
addM w340282366920938463463374607431768211455 none w/1
put w340282366920938463463374607431768211455 6162
evictM w340282366920938463463374607431768211455 w/1
evictB w/1 0.4
addB w/1 -,w340282366920938463463374607431768211455:c6 0.4 v0
addM w340282366920938463463374607431768211455 6162 w/1
get w340282366920938463463374607431768211455 6162
evictM w340282366920938463463374607431768211455 w/1
evictB w/1 0.6
next
addB w/0 -,- 0.1 v0
evictB w/0 1.2
addB w/1 -,w340282366920938463463374607431768211455:c6 0.6 v0
addM w340282366920938463463374607431768211455 6162 w/1
evictBM w340282366920938463463374607431768211455 w/1 1.4
evictB w/1 1.5
addB w340282366920938463463374607431768211455 6162 1.4 v0
get w340282366920938463463374607431768211455 6162
evictB w340282366920938463463374607431768211455 1.7
next
addB w/0 -,- 1.2 v0
evictB w/0 2.2
addB w340282366920938463463374607431768211455 6162 1.7 v0
evictB w340282366920938463463374607431768211455 2.4
addB w/1 -,w340282366920938463463374607431768211455?c6 1.5 v0
evictB w/1 2.6
next
addB w/0 -,- 2.2 v0
evictB w/0 3.2
addB w/1 -,w340282366920938463463374607431768211455?c6 2.6 v0
addB w340282366920938463463374607431768211455 6162 2.4 v0
evictM w340282366920938463463374607431768211455 w/1
evictB w/1 3.5
addB w/1 -,w340282366920938463463374607431768211455:c6 3.5 v0
addM w340282366920938463463374607431768211455 6162 w/1
get w340282366920938463463374607431768211455 6162
evictM w340282366920938463463374607431768211455 w/1
evictB w/1 3.7
",
);
