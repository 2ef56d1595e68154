//! Scripts that were judged by hand.
use crate::rows::{field, number, phases_in_short, same, same_bytes};
use lamport_clocks::Header;
use script_text::{Requests, ScriptFault, write_script};
use std::alloc::Global;
use std::process::Abort;

// The bytes of a script in a row: there `_` is a blank, `;` a line feed, `~` a carriage return and `^` a tab.
fn script_of(rt: &impl Abort, alloc: Global, text: &str) -> Vec<u8> {
    let mut script = Vec::new(alloc);
    for byte in text.bytes() {
        script
            .push(match byte {
                b'_' => b' ',
                b';' => b'\n',
                b'~' => b'\r',
                b'^' => b'\t',
                _ => byte,
            })
            .expect(rt, "memory");
    }
    script
}

// The header of a bundle of so many workers, of this version and with keys of so many bits.
const fn header_of(workers: u16, version: u8, bits: u8) -> Header {
    Header {
        version,
        verifiers: workers,
        cache: 128,
        first: 0,
        end: 16_777_215,
        bits,
    }
}

// The header of version 1, with so many workers.
const fn first_header(workers: u16) -> Header {
    header_of(workers, 1, 64)
}

// What is read of a script in short: its phases, or the line that is refused and why.
fn read_in_short(rt: &impl Abort, alloc: Global, script: &[u8], header: &Header) -> String {
    match Requests::read(alloc, script, header) {
        Ok(requests) => phases_in_short(rt, alloc, &requests),
        Err(ScriptFault::BadScript { line, cause }) => {
            let cause = cause.name();
            format!(in alloc; "line {line} {cause}").expect(rt, "memory")
        }
        Err(ScriptFault::Memory) => panic!(rt; "no memory"),
    }
}

// A script, the number of workers, and what is read of it.
const SCRIPTS: &str = "
 | 1 | /
0_put_5_6162;0_get_5; | 1 | 0 put 5 [6162],0 get 5,/
0_put_5_6162;0_get_5 | 1 | 0 put 5 [6162],0 get 5,/
0_put_5_.;0_del_5; | 1 | 0 put 5 [],0 del 5,/
epoch | 1 | //
epoch;epoch; | 1 | ///
epoch;0_get_1;epoch;0_get_2;1_get_3;epoch | 2 | /0 get 1,/0 get 2,1 get 3,//
1_put_9223372036854775808_01;0_get_7 | 2 | 1 put 9223372036854775808 [01],0 get 7,/
0_get_0;0_get_10 | 1 | 0 get 0,0 get 10,/
0_get_18446744073709551615 | 1 | 0 get 18446744073709551615,/
63_get_1 | 64 | 63 get 1,/
10_get_1 | 11 | 10 get 1,/
0_put_1_00ff | 1 | 0 put 1 [00ff],/
0_put_1_0123456789abcdef | 1 | 0 put 1 [0123456789abcdef],/
0_put_1_61;0_put_2_626364;0_get_1;epoch;0_put_3_.;0_del_4;0_put_5_6566;epoch;epoch;0_put_6_67 | 1 | 0 put 1 [61],0 put 2 [626364],0 get 1,/0 put 3 [],0 del 4,0 put 5 [6566],//0 put 6 [67],/
";

// A script, the number of workers, and the first line that is refused, with the first cause.
const REFUSED: &str = "
; | 1 | line 1 Shape
0_get_1;; | 1 | line 2 Shape
0_put_5_6162;0_get_5;0_put_05_61 | 1 | line 3 Key
0_put_5_6162;0_get_5;0_put_05_61;1_get_5 | 1 | line 3 Key
epoch;epoch;0 | 1 | line 3 Shape
get | 1 | line 1 Shape
epochs | 1 | line 1 Shape
epoc | 1 | line 1 Shape
Epoch | 1 | line 1 Shape
epoch_ | 1 | line 1 Shape
_epoch | 1 | line 1 Shape
epoch~; | 1 | line 1 Shape
0_get | 1 | line 1 Shape
0_get_1_ | 1 | line 1 Shape
0_get_1_61 | 1 | line 1 Shape
0_del_1_. | 1 | line 1 Shape
0_put_1 | 1 | line 1 Shape
0_put_1_61_61 | 1 | line 1 Shape
0_put_1_61_ | 1 | line 1 Shape
0_put_1__61 | 1 | line 1 Shape
0__get_1 | 1 | line 1 Shape
0_set_1 | 1 | line 1 Shape
0_gets_1 | 1 | line 1 Shape
0_GET_1 | 1 | line 1 Shape
0^get^1 | 1 | line 1 Shape
x_set_x | 1 | line 1 Shape
1_get_5 | 1 | line 1 Worker
64_get_5 | 64 | line 1 Worker
_get_5 | 1 | line 1 Worker
00_get_5 | 1 | line 1 Worker
01_get_5 | 2 | line 1 Worker
+0_get_5 | 1 | line 1 Worker
-0_get_5 | 1 | line 1 Worker
0x_get_5 | 1 | line 1 Worker
x0_get_5 | 1 | line 1 Worker
/_get_5 | 64 | line 1 Worker
:_get_5 | 64 | line 1 Worker
65536_get_5 | 1 | line 1 Worker
18446744073709551616_get_5 | 1 | line 1 Worker
x_put_x_x | 1 | line 1 Worker
0_get_ | 1 | line 1 Key
0_get_00 | 1 | line 1 Key
0_get_05 | 1 | line 1 Key
0_get_0x | 1 | line 1 Key
0_get_x0 | 1 | line 1 Key
0_get_+5 | 1 | line 1 Key
0_get_5~;0_get_5 | 1 | line 1 Key
0_get_5^; | 1 | line 1 Key
0_del_18446744073709551616 | 1 | line 1 Key
0_del_184467440737095516150 | 1 | line 1 Key
0_put_x_x | 1 | line 1 Key
0_put_5_ | 1 | line 1 Hex
0_put_5_6 | 1 | line 1 Hex
0_put_5_616 | 1 | line 1 Hex
0_put_5_.. | 1 | line 1 Hex
0_put_5_.6 | 1 | line 1 Hex
0_put_5_AB | 1 | line 1 Hex
0_put_5_aB | 1 | line 1 Hex
0_put_5_a/ | 1 | line 1 Hex
0_put_5_a: | 1 | line 1 Hex
0_put_5_a` | 1 | line 1 Hex
0_put_5_ag | 1 | line 1 Hex
0_put_5_ga | 1 | line 1 Hex
0_put_5_0x | 1 | line 1 Hex
0_put_5_61~; | 1 | line 1 Hex
0_put_5_none | 1 | line 1 Hex
";

// Each script of a table is read as its row says.
fn assert_table(rt: &impl Abort, alloc: Global, table: &str) {
    for row in table.trim_matches('\n').lines() {
        let script = script_of(rt, alloc, field(rt, row, 0));
        let header = first_header(number(rt, row, 1));
        let found = read_in_short(rt, alloc, &script, &header);
        same(rt, row, &found.as_str(), &field(rt, row, 2));
    }
}

#[test]
fn scripts_are_read_as_judged(rt: HostRuntime) {
    assert_table(&rt, rt.alloc(), SCRIPTS);
    assert_table(&rt, rt.alloc(), REFUSED);
}

// A script of one worker, the version and the bits of a key of the bundle that it is for, and what is read of it.
const KEYS: &str = "
0_get_18446744073709551615 | 2 | 64 | 0 get 18446744073709551615,/
0_get_18446744073709551616 | 2 | 64 | line 1 Key
0_get_18446744073709551615 | 3 | 64 | 0 get 18446744073709551615,/
0_get_18446744073709551616 | 3 | 64 | line 1 Key
0_get_340282366920938463463374607431768211455 | 3 | 64 | line 1 Key
0_get_18446744073709551615 | 3 | 128 | 0 get 18446744073709551615,/
0_get_18446744073709551616 | 3 | 128 | 0 get 18446744073709551616,/
0_del_340282366920938463463374607431768211455 | 3 | 128 | 0 del 340282366920938463463374607431768211455,/
0_get_340282366920938463463374607431768211456 | 3 | 128 | line 1 Key
0_get_3402823669209384634633746074317682114550 | 3 | 128 | line 1 Key
0_get_0340282366920938463463374607431768211455 | 3 | 128 | line 1 Key
340282366920938463463374607431768211456_get_0 | 3 | 128 | line 1 Worker
0_put_340282366920938463463374607431768211455_6162;0_get_5 | 3 | 128 | 0 put 340282366920938463463374607431768211455 [6162],0 get 5,/
0_put_340282366920938463463374607431768211455_6162;0_get_5 | 3 | 64 | line 1 Key
";

// The header of the version and bits that a row names behind its script, with one worker.
fn header_in(rt: &impl Abort, row: &str) -> Header {
    header_of(1, number(rt, row, 1), number(rt, row, 2))
}

// A row's script is read as it says.
fn assert_key(rt: &impl Abort, alloc: Global, row: &str) {
    let script = script_of(rt, alloc, field(rt, row, 0));
    let found = read_in_short(rt, alloc, &script, &header_in(rt, row));
    same(rt, row, &found.as_str(), &field(rt, row, 3));
}

#[test]
fn keys_are_of_as_many_bits_as_the_header_says(rt: HostRuntime) {
    for row in KEYS.trim().lines() {
        assert_key(&rt, rt.alloc(), row);
    }
}

// Adds a byte so many times.
fn push_times(rt: &impl Abort, text: &mut Vec<u8>, byte: u8, times: usize) {
    for _ in 0..times {
        text.push(byte).expect(rt, "memory");
    }
}

// So many digits of a value, the version and the bits of a key of the bundle, and what is read of a put of them to the key 5.
const VALUES: &str = "
128 | 1 | 64 | taken
126 | 1 | 64 | taken
127 | 1 | 64 | line 1 Hex
129 | 1 | 64 | line 1 Hex
130 | 1 | 64 | line 1 Hex
128 | 2 | 64 | taken
130 | 2 | 64 | line 1 Hex
128 | 3 | 64 | taken
130 | 3 | 64 | taken
510 | 3 | 64 | taken
509 | 3 | 64 | line 1 Hex
511 | 3 | 64 | line 1 Hex
512 | 3 | 64 | line 1 Hex
510 | 3 | 128 | taken
512 | 3 | 128 | line 1 Hex
";

// So many digits between two texts.
fn with_digits(rt: &impl Abort, alloc: Global, front: &str, digits: usize, end: &str) -> Vec<u8> {
    let mut text = Vec::from_slice(alloc, front.as_bytes()).expect(rt, "memory");
    push_times(rt, &mut text, b'7', digits);
    text.extend_from_slice(end.as_bytes()).expect(rt, "memory");
    text
}

// A value of a row's digits is taken, or refused as the row says.
fn assert_value(rt: &impl Abort, alloc: Global, row: &str) {
    let digits = number(rt, row, 0);
    let script = with_digits(rt, alloc, "0 put 5 ", digits, "");
    let found = read_in_short(rt, alloc, &script, &header_in(rt, row));
    let taken = with_digits(rt, alloc, "0 put 5 [", digits, "],/");
    let wanted = match field(rt, row, 3) {
        "taken" => taken.as_slice(),
        refused => refused.as_bytes(),
    };
    same_bytes(rt, row, found.as_bytes(), wanted);
}

#[test]
fn values_are_as_long_as_the_version_allows(rt: HostRuntime) {
    for row in VALUES.trim().lines() {
        assert_value(&rt, rt.alloc(), row);
    }
}

// So many digits of a worker's number, which makes a line of six bytes more, the version and the bits of a key of the bundle, and
// what is read of it.
const LINES: &str = "
250 | 1 | 64 | line 1 Worker
251 | 1 | 64 | line 1 Shape
1000 | 1 | 64 | line 1 Shape
250 | 2 | 64 | line 1 Worker
251 | 2 | 64 | line 1 Shape
251 | 3 | 64 | line 1 Worker
634 | 3 | 64 | line 1 Worker
635 | 3 | 64 | line 1 Shape
634 | 3 | 128 | line 1 Worker
635 | 3 | 128 | line 1 Shape
";

// A line of a row's digits is refused as the row says, whether it is ended or not.
fn assert_line(rt: &impl Abort, alloc: Global, row: &str) {
    for end in [" get 5", " get 5\n"] {
        let script = with_digits(rt, alloc, "", number(rt, row, 0), end);
        let found = read_in_short(rt, alloc, &script, &header_in(rt, row));
        same(rt, row, &found.as_str(), &field(rt, row, 3));
    }
}

#[test]
fn lines_are_as_long_as_the_version_allows(rt: HostRuntime) {
    for row in LINES.trim().lines() {
        assert_line(&rt, rt.alloc(), row);
    }
}

// The requests of a row's script as they are written.
fn written(rt: &impl Abort, alloc: Global, script: &[u8], header: &Header) -> Vec<u8> {
    match Requests::read(alloc, script, header) {
        Ok(requests) => write_script(alloc, &requests).expect(rt, "memory"),
        Err(_) => panic!(rt; "a script is refused"),
    }
}

// The script of a row is written as it was read, with its last line ended.
fn assert_written(rt: &impl Abort, alloc: Global, row: &str, header: &Header) {
    let mut script = script_of(rt, alloc, field(rt, row, 0));
    let found = written(rt, alloc, &script, header);
    if script.last().is_some_and(|byte| *byte != b'\n') {
        script.push(b'\n').expect(rt, "memory");
    }
    same_bytes(rt, row, &found, &script);
}

#[test]
fn what_was_read_is_written_in_its_one_spelling(rt: HostRuntime) {
    for row in SCRIPTS.trim_matches('\n').lines() {
        assert_written(&rt, rt.alloc(), row, &first_header(number(&rt, row, 1)));
    }
    for row in KEYS.trim().lines() {
        if !field(&rt, row, 3).starts_with("line") {
            assert_written(&rt, rt.alloc(), row, &header_in(&rt, row));
        }
    }
}
