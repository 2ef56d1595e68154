//! Rows of each form, and the bytes that they must be.
use crate::rows::{bytes_of, same, same_bytes};
use bundle_rows::{Case, RowFault, bundle_of, cases_of, log_of};
use std::alloc::Global;
use std::process::Abort;

// Rows of each form of a bundle, with their bytes.
const BUNDLE: &str = "\
verifiers 2 cache 8 first 7 end 9
frames 3
addM 5 6162 root
raw 00ff
log 1
bytes 0102
log 0

next
";

// Each line is a header or a frame, or bytes that are neither.
const BUNDLE_BYTES: &str = "\
465642310002000000080000000700000009
000000000003014000
000000000003000000
000000000003000000
000000000003050102
000000000003616200
000000000003000000
000000000003000000
0000000000020000
00ff
0001000000020102
00000000000108
";

#[test]
fn bundles_are_written(rt: HostRuntime) {
    let bytes = bundle_of(rt.alloc(), BUNDLE).expect(&rt, "memory");
    let wanted = bytes_of(&rt, rt.alloc(), BUNDLE_BYTES);
    same_bytes(&rt, "bundle", &bytes, &wanted);
}

// A header of version 3, and its bytes.
const LONG_KEYS: &str = "bits 128 verifiers 2\nversion 3 cache 256\nbytes 08\n";

const LONG_KEYS_BYTES: &str = "46564233 0002 00000100 00000000 00ffffff 80 0000 00000001 08";

#[test]
fn bundles_of_version_3_are_written(rt: HostRuntime) {
    let bytes = bundle_of(rt.alloc(), LONG_KEYS).expect(&rt, "memory");
    let wanted = bytes_of(&rt, rt.alloc(), LONG_KEYS_BYTES);
    same_bytes(&rt, "bundle", &bytes, &wanted);
}

// Each form of a row of a log, with its bytes.
const COMMANDS: &str = "\
addM 5 none root: 01 400000000000000005 00 000000000000000000
evictM 5/60 /0: 02 3c0000000000000000 010000000000000000
addB /01 empty 1.2 v3: 03 024000000000000000 0000 00000001 00000002 0003
evictB 5 258.1: 04 400000000000000005 00000102 00000001
evictBM 9223372036854775808 /1 0.1: 05 408000000000000000 018000000000000000 00000000 00000001
get 18446744073709551615 .: 06 40ffffffffffffffff 0100
put 5 6162: 07 400000000000000005 01026162
put 5 initial: 07 400000000000000005 00
get root initial: 06 000000000000000000 0000
next: 08
bytes 0aff: 0a ff
addM s1 5 none s0: 01 0001 400000000000000005 00 0000
evictM s258 s3: 02 0102 0003
addB s9 /01 empty 1.2 v3: 03 0009 024000000000000000 0000 00000001 00000002 0003
evictB s65535 258.1: 04 ffff 00000102 00000001
evictBM s4 s5 0.1: 05 0004 0005 00000000 00000001
get s1 .: 06 0001 0100
put s1 6162: 07 0001 01026162
get w5 .: 06 8000000000000000000000000000000005 0100
evictM w340282366920938463463374607431768211455/125 w/01: 02 7dfffffffffffffffffffffffffffffff8 0240000000000000000000000000000000
addB wroot initial 0.1 v0: 03 0000000000000000000000000000000000 0000 00000000 00000001 0000
addM s1 w258 0a s0: 01 0001 8000000000000000000000000000000102 01010a 0000
";

// A row has its bytes.
fn assert_row(rt: &impl Abort, alloc: Global, line: &str) {
    let (row, digits) = line.split_once(": ").expect(rt, "no bytes");
    let log = log_of(alloc, row).expect(rt, "memory");
    same_bytes(rt, row, &log, &bytes_of(rt, alloc, digits));
}

#[test]
fn rows_have_their_bytes(rt: HostRuntime) {
    same(&rt, "rows", &COMMANDS.lines().count(), &22);
    for line in COMMANDS.lines() {
        assert_row(&rt, rt.alloc(), line);
    }
}

#[test]
fn a_node_has_two_sides(rt: HostRuntime) {
    let log = log_of(rt.alloc(), "put root -,9223372036854775808?01c6").expect(&rt, "memory");
    // the tag, the root, an empty side, then the tag of a deferred pointer, its path and its digest
    let mut wanted = [0; 53];
    wanted[0] = 7;
    wanted[11] = 2;
    wanted[12] = 64;
    wanted[13] = 128;
    wanted[51] = 1;
    wanted[52] = 198;
    same_bytes(&rt, "node", &log, &wanted);
}

// Rows that are none.
const BAD_ROWS: &str = "\
add 5 none root
addM 5 none
addM 5 none root 7
addM -5 none root
addM 18446744073709551616 none root
addM /2 empty root
addM 5/65 none root
addM w5/129 none wroot
addM w340282366920938463463374607431768211456 none wroot
addM 5w none root
get 5 616
get 5 -,5
get 5 5:c,-
addB 5 none 01 v0
addB 5 none 0.4294967296 v0
addB 5 none 0.1 0
evictB 5 0.1 v0
nexts
next 1
log x
frames 0
frames 65537
verifiers
version 1 verifiers 1 cache 4 first 0 end 1 bits 64 end 1
addM s1 5 none root
evictM s65536 s0
get s1 root
get s1 empty
caches 4
bytes 0
raw 0g
";

// A row that is none is named.
fn assert_bad(rt: &impl Abort, alloc: Global, row: &str) {
    match bundle_of(alloc, row) {
        Err(fault) => same(rt, row, &fault, &RowFault::BadRow(row)),
        Ok(_) => panic!(rt; "{row}"),
    }
}

#[test]
fn bad_rows_are_named(rt: HostRuntime) {
    for row in BAD_ROWS.lines() {
        assert_bad(&rt, rt.alloc(), row);
    }
}

const TABLE: &str = "== one\nnext\n-> 7\nab\ncd\n== two\n-> 0\n";

#[test]
fn tables_are_read(rt: HostRuntime) {
    let cases = cases_of(rt.alloc(), TABLE).expect(&rt, "memory");
    let one = Case {
        label: "one",
        rows: "next\n",
        status: 7,
        report: "ab\ncd\n",
    };
    let two = Case {
        label: "two",
        rows: "",
        status: 0,
        report: "",
    };
    same(&rt, "cases", &cases.as_slice(), &[one, two].as_slice());
    let is_refused = cases_of(rt.alloc(), "== one\nnext\n").is_err();
    same(&rt, "a case without a status", &is_refused, &true);
}
