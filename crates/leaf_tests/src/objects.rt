//! The objects of the outside: in memory, and over real files.
use crate::rows::{same, same_bytes};
use fv_outside::{
    Failed, FileVault, FreeGate, Gate, MemorySink, MemorySource, MemoryVault, Sink, Source,
    StdSink, StdSource, SureSink, SureSource, SureVault, Vault, write_all,
};
use std::fs;
use std::fs::File;

#[test]
fn memory_source_gives_pieces_and_fails_as_told(rt: HostRuntime) {
    let mut source = MemorySource::new(rt.alloc(), b"abcde", 2, &[1, 7]).expect(&rt, "memory");
    let mut room = [b'.'; 3];
    let runs = [
        (Ok(2), *b"ab."),
        (Err(Failed), *b"ab."),
        (Ok(2), *b"cd."),
        (Ok(1), *b"ed."),
        (Ok(0), *b"ed."),
    ];
    for (answer, after) in runs {
        same(
            &rt,
            "source.read(&mut room)",
            &source.read(&mut room),
            &answer,
        );
        same(&rt, "room", &room, &after);
    }
    same(&rt, "source.faults()", &source.faults(), &1);
    same(&rt, "source.left().len()", &source.left().len(), &0);
}

#[test]
fn sure_source_gives_all_it_has(rt: HostRuntime) {
    let mut source = SureSource::new(rt.alloc(), b"abc", 2).expect(&rt, "memory");
    let mut room = [b'.'; 4];
    same(
        &rt,
        "source.read(&mut room)",
        &source.read(&mut room),
        &Ok(2),
    );
    same_bytes(&rt, "source.left()", source.left(), b"c".as_slice());
    same(
        &rt,
        "source.read(&mut room)",
        &source.read(&mut room),
        &Ok(1),
    );
    same(
        &rt,
        "source.read(&mut room)",
        &source.read(&mut room),
        &Ok(0),
    );
    same(&rt, "room", &room, &*b"cb..");
}

#[test]
fn memory_sink_takes_pieces_until_it_is_full(rt: HostRuntime) {
    let mut sink = MemorySink::new(rt.alloc(), 5, 2, &[1]).expect(&rt, "memory");
    for answer in [Ok(2), Err(Failed), Ok(2), Ok(1), Err(Failed)] {
        same(&rt, "sink.write(b\"abc\")", &sink.write(b"abc"), &answer);
    }
    same_bytes(&rt, "sink.bytes()", sink.bytes(), b"ababa".as_slice());
    same(&rt, "sink.faults()", &sink.faults(), &2);
}

#[test]
fn memory_vault_takes_a_name_that_fits(rt: HostRuntime) {
    let runs = [
        ("logs", 9, Ok(()), Some("logs")),
        ("logs2", 9, Err(Failed), None),
        ("logs", 0, Err(Failed), None),
    ];
    for (path, fails, answer, name) in runs {
        let mut vault = MemoryVault::new(rt.alloc(), 4, 3, &[fails]).expect(&rt, "memory");
        same(&rt, "vault.name(path)", &vault.name(path), &answer);
        same(&rt, "vault.name_taken()", &vault.name_taken(), &name);
        same(&rt, "vault.write(b\"abcd\")", &vault.write(b"abcd"), &Ok(3));
        same_bytes(&rt, "vault.bytes()", vault.bytes(), b"abc".as_slice());
        same(
            &rt,
            "vault.faults()",
            &vault.faults(),
            &u64::from(name.is_none()),
        );
    }
}

#[test]
fn sure_sink_tells_no_bytes_past_its_capacity(rt: HostRuntime) {
    let mut sink = SureSink::new(rt.alloc(), 4, 2).expect(&rt, "memory");
    for held in [Some(b"ab".as_slice()), Some(b"abab".as_slice()), None, None] {
        same(&rt, "sink.write(b\"abc\")", &sink.write(b"abc"), &Ok(2));
        same(&rt, "sink.bytes()", &sink.bytes(), &held);
    }
    let mut vault = SureVault::new(rt.alloc(), 3, 9).expect(&rt, "memory");
    same(&rt, "vault.name(\"logs\")", &vault.name("logs"), &Ok(()));
    same(&rt, "vault.is_named()", &vault.is_named(), &true);
    same(&rt, "vault.write(b\"abc\")", &vault.write(b"abc"), &Ok(3));
    same(
        &rt,
        "vault.bytes()",
        &vault.bytes(),
        &Some(b"abc".as_slice()),
    );
}

#[test]
fn write_all_writes_the_whole_text_or_a_front_of_it(rt: HostRuntime) {
    let runs = [
        (9, Ok(()), b"abcde".as_slice()),
        (2, Err(Failed), b"abcd".as_slice()),
        (0, Err(Failed), b"".as_slice()),
    ];
    for (fails, answer, held) in runs {
        let mut sink = MemorySink::new(rt.alloc(), 8, 2, &[fails]).expect(&rt, "memory");
        same(
            &rt,
            "write_all(&mut sink, b\"abcde\")",
            &write_all(&mut sink, b"abcde"),
            &answer,
        );
        same(&rt, "sink.bytes()", &sink.bytes(), &held);
    }
}

#[test]
fn std_sink_writes_to_a_file(rt: HostRuntime) {
    let path = "leaf_tests_sink";
    let mut sink = StdSink::new(File::create(&rt, path).expect(&rt, "memory"));
    same(
        &rt,
        "write_all(&mut sink, b\"abc\")",
        &write_all(&mut sink, b"abc"),
        &Ok(()),
    );
    same_bytes(
        &rt,
        "fs::read_to_string(&rt, path)?.as_str()",
        fs::read_to_string(&rt, path)
            .expect(&rt, "memory")
            .as_bytes(),
        "abc".as_bytes(),
    );
    // A file that was opened to be read takes nothing.
    let mut sink = StdSink::new(File::open(&rt, path).expect(&rt, "memory"));
    same(
        &rt,
        "sink.write(b\"abc\")",
        &sink.write(b"abc"),
        &Err(Failed),
    );
    same(&rt, "sink.faults()", &sink.faults(), &1);
    fs::remove_file(&rt, path).expect(&rt, "memory");
}

#[test]
fn std_source_reads_a_file(rt: HostRuntime) {
    let path = "leaf_tests_source";
    fs::write(&rt, path, "abc").expect(&rt, "memory");
    let mut source = StdSource::new(File::open(&rt, path).expect(&rt, "memory"));
    let mut room = [b'.'; 4];
    for answer in [Ok(3), Ok(0)] {
        same(
            &rt,
            "source.read(&mut room)",
            &source.read(&mut room),
            &answer,
        );
    }
    same(&rt, "room", &room, &*b"abc.");
    // A file that was created to be written gives nothing.
    let mut source = StdSource::new(File::create(&rt, path).expect(&rt, "memory"));
    same(
        &rt,
        "source.read(&mut room)",
        &source.read(&mut room),
        &Err(Failed),
    );
    same(&rt, "source.faults()", &source.faults(), &1);
    fs::remove_file(&rt, path).expect(&rt, "memory");
}

#[test]
fn file_vault_writes_to_the_file_that_it_is_named_by(rt: HostRuntime) {
    let path = "leaf_tests_vault";
    let mut vault = FileVault::new(&rt);
    same(&rt, "vault.name(path)", &vault.name(path), &Ok(()));
    same(
        &rt,
        "write_all(&mut vault, b\"abc\")",
        &write_all(&mut vault, b"abc"),
        &Ok(()),
    );
    same(&rt, "vault.faults()", &vault.faults(), &0);
    same_bytes(
        &rt,
        "fs::read_to_string(&rt, path)?.as_str()",
        fs::read_to_string(&rt, path)
            .expect(&rt, "memory")
            .as_bytes(),
        "abc".as_bytes(),
    );
    fs::remove_file(&rt, path).expect(&rt, "memory");
}

#[test]
fn file_vault_leaves_a_file_that_is_there_as_it_is(rt: HostRuntime) {
    let path = "leaf_tests_kept";
    fs::write(&rt, path, "abc").expect(&rt, "memory");
    let mut vault = FileVault::new(&rt);
    same(&rt, "vault.name(path)", &vault.name(path), &Err(Failed));
    same(&rt, "vault.faults()", &vault.faults(), &1);
    same_bytes(
        &rt,
        "fs::read_to_string(&rt, path)?.as_str()",
        fs::read_to_string(&rt, path)
            .expect(&rt, "memory")
            .as_bytes(),
        "abc".as_bytes(),
    );
    fs::remove_file(&rt, path).expect(&rt, "memory");
}

#[test]
fn file_vault_without_a_file_drops_what_it_is_given(rt: HostRuntime) {
    let mut unnamed = FileVault::new(&rt);
    same(
        &rt,
        "unnamed.write(b\"abc\")",
        &unnamed.write(b"abc"),
        &Ok(3),
    );
    let mut nowhere = FileVault::new(&rt);
    same(
        &rt,
        "nowhere.name(\"leaf_tests_no_folder/vault\")",
        &nowhere.name("leaf_tests_no_folder/vault"),
        &Err(Failed),
    );
    same(&rt, "nowhere.faults()", &nowhere.faults(), &1);
}

fn enter_twice<G: Gate + Sync>(gate: &G) {
    gate.enter(0, 0);
    gate.enter(u16::MAX, u64::MAX);
}

#[test]
fn free_gate_holds_nobody(_rt: HostRuntime) {
    enter_twice(&FreeGate);
}
