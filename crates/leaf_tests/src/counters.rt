//! The counters of the outside: in memory, and over a real file.
use crate::rows::{field, same, same_bytes};
use fv_outside::{Counter, Failed, FileCounter, MemoryCounter, SureCounter};
use std::fs;

#[test]
fn memory_counter_rises_and_fails_as_told(rt: HostRuntime) {
    let mut counter = MemoryCounter::new(rt.alloc(), 6, &[2, 4]).expect(&rt, "memory");
    same(&rt, "the first read", &counter.read(), &Ok(6));
    same(&rt, "a raise", &counter.raise(), &Ok(7));
    same(&rt, "a raise that fails", &counter.raise(), &Err(Failed));
    same(&rt, "a read behind it", &counter.read(), &Ok(7));
    same(&rt, "a read that fails", &counter.read(), &Err(Failed));
    same(&rt, "a raise behind it", &counter.raise(), &Ok(8));
    same(&rt, "counter.number()", &counter.number(), &8);
    same(&rt, "counter.faults()", &counter.faults(), &2);
}

#[test]
fn memory_counter_is_not_raised_past_its_last_number(rt: HostRuntime) {
    let mut counter = MemoryCounter::new(rt.alloc(), u64::MAX - 1, &[]).expect(&rt, "memory");
    same(&rt, "to the last", &counter.raise(), &Ok(u64::MAX));
    same(&rt, "past the last", &counter.raise(), &Err(Failed));
    same(&rt, "read there", &counter.read(), &Ok(u64::MAX));
    same(&rt, "counter.faults()", &counter.faults(), &1);
}

#[test]
fn sure_counter_rises(rt: HostRuntime) {
    let mut counter = SureCounter::new(u64::MAX - 1);
    same(&rt, "a read", &counter.read(), &Ok(u64::MAX - 1));
    same(&rt, "the last raise", &counter.raise(), &Ok(u64::MAX));
    same(&rt, "counter.number()", &counter.number(), &u64::MAX);
}

#[test]
fn file_counter_begins_at_0_and_keeps_its_number_in_a_file(rt: HostRuntime) {
    let path = "leaf_tests_counter";
    let mut counter = FileCounter::new(rt.alloc(), &rt, path).expect(&rt, "memory");
    same(&rt, "without a file", &counter.read(), &Ok(0));
    for number in 1..=10 {
        same(&rt, "counter.raise()", &counter.raise(), &Ok(number));
    }
    let text = fs::read_to_string(&rt, path).expect(&rt, "memory");
    same_bytes(&rt, "the file", text.as_bytes(), "10\n".as_bytes());
    let mut later = FileCounter::new(rt.alloc(), &rt, path).expect(&rt, "memory");
    same(&rt, "later.read()", &later.read(), &Ok(10));
    same(&rt, "later.faults()", &later.faults(), &0);
    fs::remove_file(&rt, path).expect(&rt, "memory");
}

// A text of a file, whose end of a line is written as `~`, and what a read and then a raise answer.
const TEXTS: &str = "
    0~                      | 0                    | 1
    9~                      | 9                    | 10
    18446744073709551614~   | 18446744073709551614 | 18446744073709551615
    18446744073709551615~   | 18446744073709551615 | failed
    18446744073709551616~   | failed               | failed
    99999999999999999999~   | failed               | failed
    100000000000000000000~  | failed               | failed
    1000000000000000000000~ | failed               | failed
    7                       | failed               | failed
    07~                     | failed               | failed
    7~~                     | failed               | failed
    7~7~                    | failed               | failed
    +7~                     | failed               | failed
    -7~                     | failed               | failed
    7x~                     | failed               | failed
    ~                       | failed               | failed";

fn answer_of(word: &str) -> Result<u64, Failed> {
    match word.parse() {
        Ok(number) => Ok(number),
        Err(_) => Err(Failed),
    }
}

#[test]
fn file_counter_reads_a_number_with_its_line_end_alone(rt: HostRuntime) {
    let path = "leaf_tests_number";
    for row in TEXTS.lines() {
        if row.is_empty() {
            continue;
        }
        let text = field(&rt, row, 0).replace(rt.alloc(), "~", "\n");
        fs::write(&rt, path, text.expect(&rt, "memory").as_str()).expect(&rt, "memory");
        let mut counter = FileCounter::new(rt.alloc(), &rt, path).expect(&rt, "memory");
        same(&rt, row, &counter.read(), &answer_of(field(&rt, row, 1)));
        same(&rt, row, &counter.raise(), &answer_of(field(&rt, row, 2)));
    }
    fs::remove_file(&rt, path).expect(&rt, "memory");
}

#[test]
fn file_counter_in_a_folder_that_is_missing_fails_to_rise(rt: HostRuntime) {
    let path = "leaf_tests_no_folder/counter";
    let mut counter = FileCounter::new(rt.alloc(), &rt, path).expect(&rt, "memory");
    same(&rt, "counter.read()", &counter.read(), &Ok(0));
    same(&rt, "counter.raise()", &counter.raise(), &Err(Failed));
    same(&rt, "counter.faults()", &counter.faults(), &1);
}
