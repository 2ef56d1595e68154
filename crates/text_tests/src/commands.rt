//! Commands whose bytes were written out by hand, from the table of tags and fields.
use crate::rows::{bytes_of, data_value, field, number, same, same_bytes, stamp};
use lamport_clocks::Header;
use log_codec::{
    Command, Decoded, LONGEST_PATH_COMMAND_TEXT, LONGEST_SLOT_COMMAND_TEXT, LogCommand,
    SlotCommand, read_command, write_path_command, write_slot_command,
};
use record_text::{Blob, Node, Pointer, Value};
use std::process::Abort;
use tree_keys::Path;

// What bytes of a log of version 1 begin with.
fn read_by_path(bytes: &[u8]) -> Decoded<LogCommand> {
    read_command(&Header::by_path(1, 4, 0, 16_777_215), bytes)
}

// A command has this text, and is read from it, also where a byte follows, and from no front of it.
fn assert_command(rt: &impl Abort, command: Command, mut text: Vec<u8>, row: &str) {
    let len = text.len();
    same_bytes(
        rt,
        row,
        write_path_command(&command).as_slice(),
        text.as_slice(),
    );
    for cut in 0..len {
        same(rt, row, &read_by_path(&text[..cut]), &Decoded::Truncated);
    }
    let whole = read_by_path(&text);
    text.push(8).expect(rt, "memory");
    same(rt, row, &read_by_path(&text), &whole);
    same(
        rt,
        row,
        &whole,
        &Decoded::Read(LogCommand::ByPath(command), len),
    );
}

// A command of a node by its name.
fn command_at_a_node(rt: &impl Abort, name: &str) -> Command {
    let root = Path::root();
    let zero = root.child(false);
    let one = root.child(true);
    match name {
        "addM 0 empty root" => Command::AddM {
            path: zero,
            value: Value::Node(Node::empty()),
            parent: root,
        },
        "evictBM 1 root 0.2" => Command::EvictBM {
            path: one,
            parent: root,
            stamp: stamp(0, 2),
        },
        "addB 1 empty 0.2 v0" => Command::AddB {
            path: one,
            value: Value::Node(Node::empty()),
            stamp: stamp(0, 2),
            verifier: 0,
        },
        "evictB 1 1.4" => Command::EvictB {
            path: one,
            stamp: stamp(1, 4),
        },
        "next" => Command::NextEpoch,
        _ => panic!(rt; "a command of another name"),
    }
}

const NODE_COMMANDS: &str = "
addM 0 empty root | 01 01 0000000000000000 00 00 00 0000000000000000
evictBM 1 root 0.2 | 05 01 8000000000000000 00 0000000000000000 00000000 00000002
addB 1 empty 0.2 v0 | 03 01 8000000000000000 00 00 00000000 00000002 0000
evictB 1 1.4 | 04 01 8000000000000000 00000001 00000004
next | 08
";

#[test]
fn commands_of_nodes_have_a_tag_and_fields(rt: HostRuntime) {
    for row in NODE_COMMANDS.trim().lines() {
        let name = field(&rt, row, 0);
        let text = field(&rt, row, 1);
        let text = bytes_of(&rt, rt.alloc(), text);
        assert_command(&rt, command_at_a_node(&rt, name), text, row);
    }
}

// A command of the key 5 by its name.
fn command_at_a_key(rt: &impl Abort, name: &str) -> Command {
    let root = Path::root();
    let path = Path::of_key(5);
    let value = data_value(rt, b"ab");
    match name {
        "addM 5 none root" => Command::AddM {
            path,
            value: Value::Blob(Blob::none()),
            parent: root,
        },
        "put 5 6162" => Command::Put { path, value },
        "evictM 5 root" => Command::EvictM { path, parent: root },
        "addM 5 6162 0" => Command::AddM {
            path,
            value,
            parent: root.child(false),
        },
        "get 5 6162" => Command::Get { path, value },
        "absent 5 root" => Command::Absent { path, parent: root },
        "absent 5 0" => Command::Absent {
            path,
            parent: root.child(false),
        },
        _ => panic!(rt; "a command of another name"),
    }
}

const KEY_COMMANDS: &str = "
addM 5 none root | 01 40 0000000000000005 00 00 0000000000000000
put 5 6162 | 07 40 0000000000000005 01 02 6162
evictM 5 root | 02 40 0000000000000005 00 0000000000000000
addM 5 6162 0 | 01 40 0000000000000005 01 02 6162 01 0000000000000000
get 5 6162 | 06 40 0000000000000005 01 02 6162
absent 5 root | 09 40 0000000000000005 00 0000000000000000
absent 5 0 | 09 40 0000000000000005 01 0000000000000000
";

#[test]
fn commands_of_keys_have_a_tag_and_fields(rt: HostRuntime) {
    for row in KEY_COMMANDS.trim().lines() {
        let name = field(&rt, row, 0);
        let text = field(&rt, row, 1);
        let text = bytes_of(&rt, rt.alloc(), text);
        assert_command(&rt, command_at_a_key(&rt, name), text, row);
    }
}

// The header of a bundle of another version, whose keys have so many bits.
fn header_of(version: u8, bits: u8) -> Header {
    Header {
        version,
        bits,
        ..Header::by_path(1, 4, 0, 16_777_215)
    }
}

// A command that names slots has this text, and is read from it and from no front of it.
fn assert_slot_command(
    rt: &impl Abort,
    header: &Header,
    command: SlotCommand,
    text: &[u8],
    row: &str,
) {
    same_bytes(rt, row, write_slot_command(&command).as_slice(), text);
    for cut in 0..text.len() {
        let front = read_command(header, &text[..cut]);
        same(rt, row, &front, &Decoded::Truncated);
    }
    let wanted = Decoded::Read(LogCommand::BySlot(command), text.len());
    same(rt, row, &read_command(header, text), &wanted);
}

// By slots an absence keeps its path, and its parent is told by its slot.
#[test]
fn an_absence_by_slot_has_its_path(rt: HostRuntime) {
    let row = "09 40 0000000000000005 0102";
    let text = bytes_of(&rt, rt.alloc(), row);
    let command = SlotCommand::Absent {
        path: Path::of_key(5),
        parent: 0x0102,
    };
    assert_slot_command(&rt, &header_of(2, 64), command, &text, row);
}

// A command that names slots by its name, at this path.
fn slot_command_at(rt: &impl Abort, name: &str, path: Path) -> SlotCommand {
    let value = data_value(rt, b"ab");
    match name {
        "addM none" => SlotCommand::AddM {
            slot: 1,
            path,
            value: Value::Blob(Blob::none()),
            parent: 2,
        },
        "addM empty" => SlotCommand::AddM {
            slot: 1,
            path,
            value: Value::Node(Node::empty()),
            parent: 2,
        },
        "addB ab" => SlotCommand::AddB {
            slot: 1,
            path,
            value,
            stamp: stamp(3, 4),
            verifier: 5,
        },
        "absent" => SlotCommand::Absent { path, parent: 2 },
        _ => panic!(rt; "a command of another name"),
    }
}

// The bits of a key, a command, how many bits lead to its path, the number of these bits, and the command's text in version 3.
const LATER_COMMANDS: &str = "
64 | addM none | 64 | 0 | 01 0001 40 0000000000000000 00 0002
64 | addB ab | 64 | 1 | 03 0001 40 0000000000000001 01 02 6162 00000003 00000004 0005
64 | absent | 64 | 18446744073709551615 | 09 40 ffffffffffffffff 0002
128 | addM none | 128 | 0 | 01 0001 80 00000000000000000000000000000000 00 0002
128 | addM empty | 64 | 92233720368547758080 | 01 0001 40 00000000000000050000000000000000 00 00 0002
128 | addB ab | 128 | 1 | 03 0001 80 00000000000000000000000000000001 01 02 6162 00000003 00000004 0005
128 | addB ab | 128 | 18446744073709551616 | 03 0001 80 00000000000000010000000000000000 01 02 6162 00000003 00000004 0005
128 | absent | 128 | 340282366920938463463374607431768211455 | 09 80 ffffffffffffffffffffffffffffffff 0002
";

#[test]
fn commands_of_version_3_have_paths_of_their_tree(rt: HostRuntime) {
    for row in LATER_COMMANDS.trim().lines() {
        let header = header_of(3, number(&rt, row, 0));
        let wide = header.bits == 128;
        let path = Path::of_word(wide, number(&rt, row, 2), number(&rt, row, 3));
        let name = field(&rt, row, 1);
        let command = slot_command_at(&rt, name, path.expect(&rt, "no path"));
        let text = bytes_of(&rt, rt.alloc(), field(&rt, row, 4));
        assert_slot_command(&rt, &header, command, &text, row);
    }
}

// What a put of so many bytes in slot 1 is read as in a bundle with this header: its length alone is malformed, or wants more.
fn assert_longest_put(rt: &impl Abort, header: &Header, bytes: &[u8], is_read: bool) {
    let command = SlotCommand::Put {
        slot: 1,
        value: Blob::of_bytes(bytes).expect(rt, "more than 255 bytes"),
    };
    let text = write_slot_command(&command);
    let text = text.as_slice();
    if is_read {
        assert_slot_command(rt, header, command, text, "a put");
        return;
    }
    same(
        rt,
        "whole",
        &read_command(header, text),
        &Decoded::Malformed,
    );
    let count = text.get(..5).expect(rt, "a short text");
    same(
        rt,
        "count",
        &read_command(header, count),
        &Decoded::Malformed,
    );
}

#[test]
fn puts_are_as_long_as_their_version_allows(rt: HostRuntime) {
    let bytes = [7; 255];
    for len in [64, 65, 255] {
        let value = bytes.get(..len).expect(&rt, "so many bytes");
        assert_longest_put(&rt, &header_of(2, 64), value, len == 64);
        assert_longest_put(&rt, &header_of(3, 64), value, true);
        assert_longest_put(&rt, &header_of(3, 128), value, true);
    }
}

// A pointer to the path one bit longer than this one, on a side.
fn pointer_below(path: &Path, side: bool) -> Option<Pointer> {
    if path.is_data() {
        return None;
    }
    Some(Pointer {
        path: path.child(side),
        digest: [0x11; 32],
        deferred: side,
    })
}

const LONGEST: &str = "
03 01 0000000000000000
01 02 0000000000000000 1111111111111111111111111111111111111111111111111111111111111111
02 02 4000000000000000 1111111111111111111111111111111111111111111111111111111111111111
01020304 05060708 090a
";

// A bundle of version 1 has none that is longer.
#[test]
fn the_longest_has_104_bytes(rt: HostRuntime) {
    let path = Path::root().child(false);
    let node = Node::empty()
        .with_side(false, pointer_below(&path, false))
        .with_side(true, pointer_below(&path, true));
    let command = Command::AddB {
        path,
        value: Value::Node(node),
        stamp: stamp(0x0102_0304, 0x0506_0708),
        verifier: 0x090a,
    };
    let text = bytes_of(&rt, rt.alloc(), LONGEST);
    same(&rt, "text.len()", &text.len(), &104);
    assert_command(&rt, command, text, "the longest")
}

// An add of the longest value by a stamp.
fn longest_by_slot(rt: &impl Abort, path: Path) -> SlotCommand {
    SlotCommand::AddB {
        slot: 1,
        path,
        value: data_value(rt, &[7; 255]),
        stamp: stamp(1, 2),
        verifier: 0,
    }
}

// By slots one of version 3 has a tag, a slot, a path of 9 bytes or of 17, 257 bytes of a value, and ten more.
#[test]
fn the_longest_of_version_3_have_279_and_287_bytes(rt: HostRuntime) {
    for (bits, len) in [(64, 279), (128, 287)] {
        let command = longest_by_slot(&rt, Path::of_number(bits == 128, 5));
        let text = write_slot_command(&command);
        same(&rt, "text.len()", &text.len(), &len);
        let text = text.as_slice();
        assert_slot_command(&rt, &header_of(3, bits), command, text, "the longest");
    }
}

// Longer ones are written, of paths of the tree whose keys have 128 bits.
#[test]
fn the_longest_of_all_fill_their_room(rt: HostRuntime) {
    let path = Path::of_wide(5);
    let by_path = write_path_command(&Command::AddM {
        path,
        value: data_value(&rt, &[7; 255]),
        parent: path,
    });
    same(&rt, "by path", &by_path.len(), &LONGEST_PATH_COMMAND_TEXT);
    let by_slot = write_slot_command(&longest_by_slot(&rt, path));
    same(&rt, "by slot", &by_slot.len(), &LONGEST_SLOT_COMMAND_TEXT);
}

// A tag of no command; a path too long, or with an unused bit; a value of another kind, or one whose
// pointer leads elsewhere.
const MALFORMED: &str = "
00
0a
ff
01 41 0000000000000000
02 01 0000000000000000 01 4000000000000000
03 01 0000000000000000 00 03
03 01 0000000000000000 01 01 8000000000000000
05 01 4000000000000000
06 40 0000000000000005 02
07 40 0000000000000005 01 41
09 41 0000000000000000
09 40 0000000000000005 01 4000000000000000
";

#[test]
fn fields_are_malformed_where_they_stand(rt: HostRuntime) {
    for row in MALFORMED.trim().lines() {
        let mut text = bytes_of(&rt, rt.alloc(), row);
        same(&rt, row, &read_by_path(&text), &Decoded::Malformed);
        let front = text
            .get(..text.len().saturating_sub(1))
            .expect(&rt, "short");
        same(&rt, row, &read_by_path(front), &Decoded::Truncated);
        text.extend_from_slice(&[0; 40]).expect(&rt, "memory");
        same(&rt, row, &read_by_path(&text), &Decoded::Malformed);
    }
}

// In version 3, for keys of 64 bits and of 128: a path too long, or one of the other tree, with an unused bit that isn't 0;
// a value of another kind; and a tag of no command.
const LATER_MALFORMED: &str = "
64 | 0a
64 | 01 0001 41 0000000000000000
64 | 01 0001 80 0000000000000000
64 | 09 80 0000000000000000
64 | 06 0001 02
128 | 0a
128 | 01 0001 81 00000000000000000000000000000000
128 | 03 0001 40 0000000000000005 0102616200000003
128 | 09 40 0000000000000005 0002000000000000
128 | 01 0001 40 00000000000000050000000000000000 03
128 | 01 0001 80 00000000000000000000000000000005 02
";

#[test]
fn paths_of_the_other_tree_are_malformed(rt: HostRuntime) {
    for row in LATER_MALFORMED.trim().lines() {
        let header = header_of(3, number(&rt, row, 0));
        let text = bytes_of(&rt, rt.alloc(), field(&rt, row, 1));
        same(&rt, row, &read_command(&header, &text), &Decoded::Malformed);
        let len = text.len().saturating_sub(1);
        let front = text.get(..len).expect(&rt, "short");
        same(&rt, row, &read_command(&header, front), &Decoded::Truncated);
    }
}
