//! Clashes that were written out by hand.
use crate::audit_event::{AuditChange, AuditEvent};
use crate::clash::first_clash;
use lamport_clocks::Stamp;
use record_text::{Blob, Element, Node, Pointer, Value, ValueText};
use stamp_order::Moment;
use std::alloc::{AllocError, Global};
use std::process::Abort;
use std::test::Fail;
use tree_keys::Path;

// What is done with a record, or with an element of it.
#[derive(Clone, Copy)]
enum Way {
    Back,
    Out,
    Came,
    Went,
}

// Whether a path's keys have 128 bits, its length and its word.
type Place = (bool, u8, u128);

const KEY: Place = (false, 64, 5);

const OTHER_KEY: Place = (false, 64, 6);

const NODE: Place = (false, 1, 1 << 63);

const LONGER_NODE: Place = (false, 2, 1 << 63);

const WIDE_KEY: Place = (true, 128, 5 << 64);

const OTHER_WIDE_KEY: Place = (true, 128, 6 << 64);

const ROOT: Place = (false, 0, 0);

const WIDE_ROOT: Place = (true, 0, 0);

// The epoch of an audit event, what is done, the path, and the number of the value.
type Line = (u32, Way, Place, u8);

// The lines, the first epoch, how many epochs, and the values of the clash.
type Row = (&'static [Line], u32, u64, Option<(u8, u8)>);

// A value that the number tells from others: no value, a data value of one byte, or from 100 on a node.
fn value_of(rt: &impl Abort, number: u8) -> Value {
    if number == 0 {
        return Value::Blob(Blob::none());
    }
    if number < 100 {
        return Value::Blob(Blob::of_bytes(&[number]).expect(rt, "one byte"));
    }
    Value::Node(Node {
        side0: None,
        side1: Some(Pointer {
            path: Path::of_key(u64::MAX),
            digest: [number; 32],
            deferred: false,
        }),
    })
}

fn element_of(path: Path, value: Value, stamp: Stamp) -> Element {
    Element {
        path,
        value,
        stamp,
        verifier: 1,
    }
}

fn audit_change_of(rt: &impl Abort, way: Way, path: Path, number: u8, at: Stamp) -> AuditChange {
    match way {
        Way::Back => AuditChange::AddM(path, value_of(rt, number)),
        Way::Out => AuditChange::EvictM(path, value_of(rt, number)),
        Way::Came => AuditChange::AddB(element_of(path, value_of(rt, number), at)),
        Way::Went => AuditChange::EvictB(element_of(path, value_of(rt, number), at)),
    }
}

fn act_of(rt: &impl Abort, line: &Line) -> AuditEvent {
    let (epoch, way, place, number) = *line;
    let path = Path::of_word(place.0, place.1, place.2).expect(rt, "a path");
    let at = Stamp { epoch, counter: 0 };
    let moment = Moment {
        at,
        verifier: 0,
        index: 0,
    };
    AuditEvent {
        moment,
        change: audit_change_of(rt, way, path, number, at),
    }
}

fn audit_events_of(
    alloc: Global,
    rt: &impl Abort,
    lines: &[Line],
) -> Result<Vec<AuditEvent>, AllocError> {
    let mut audited = Vec::new(alloc);
    for line in lines {
        audited.push(act_of(rt, line))?;
    }
    Ok(audited)
}

#[test]
fn the_first_clash_of_the_epochs_is_shown(rt: HostRuntime) -> Result<(), Fail> {
    let table: [Row; 20] = [
        (&[], 3, 2, None),
        // Nothing was taken of the path.
        (&[(3, Way::Back, KEY, 1)], 3, 2, None),
        (
            &[(3, Way::Out, KEY, 1), (3, Way::Back, OTHER_KEY, 2)],
            3,
            2,
            None,
        ),
        // It went out after it had come back.
        (&[(3, Way::Back, KEY, 2), (3, Way::Out, KEY, 1)], 3, 2, None),
        // The same value comes back, and another.
        (&[(3, Way::Out, KEY, 1), (3, Way::Back, KEY, 1)], 3, 2, None),
        (
            &[(3, Way::Out, KEY, 1), (4, Way::Back, KEY, 2)],
            3,
            2,
            Some((1, 2)),
        ),
        (
            &[(3, Way::Out, KEY, 0), (3, Way::Back, KEY, 2)],
            3,
            2,
            Some((0, 2)),
        ),
        // Of two clashes the one that came back first is shown.
        (
            &[
                (3, Way::Out, KEY, 1),
                (3, Way::Out, OTHER_KEY, 3),
                (3, Way::Back, OTHER_KEY, 4),
                (3, Way::Back, KEY, 2),
            ],
            3,
            2,
            Some((3, 4)),
        ),
        // Past the last epoch there is none; in it, and before the first, there are.
        (&[(3, Way::Out, KEY, 1), (5, Way::Back, KEY, 2)], 3, 2, None),
        (
            &[(3, Way::Out, KEY, 1), (5, Way::Back, KEY, 2)],
            3,
            3,
            Some((1, 2)),
        ),
        (
            &[(2, Way::Out, KEY, 1), (2, Way::Back, KEY, 2)],
            3,
            1,
            Some((1, 2)),
        ),
        // No epochs have no clash, and as many as there can be have each.
        (&[(3, Way::Out, KEY, 1), (3, Way::Back, KEY, 2)], 3, 0, None),
        (
            &[(0, Way::Out, KEY, 1), (u32::MAX, Way::Back, KEY, 2)],
            u32::MAX,
            u64::MAX,
            Some((1, 2)),
        ),
        // Two paths of one word are two, by their lengths.
        (
            &[(3, Way::Out, NODE, 101), (3, Way::Back, LONGER_NODE, 102)],
            3,
            2,
            None,
        ),
        // The two roots are two, and so are keys of 128 bits that differ in their high halves.
        (
            &[(3, Way::Out, ROOT, 101), (3, Way::Back, WIDE_ROOT, 102)],
            3,
            2,
            None,
        ),
        (
            &[
                (3, Way::Out, WIDE_KEY, 1),
                (3, Way::Out, OTHER_WIDE_KEY, 2),
                (3, Way::Back, WIDE_KEY, 3),
            ],
            3,
            2,
            Some((1, 3)),
        ),
        // What was taken last counts.
        (
            &[
                (3, Way::Out, KEY, 1),
                (3, Way::Back, KEY, 1),
                (3, Way::Out, KEY, 2),
                (3, Way::Back, KEY, 2),
            ],
            3,
            2,
            None,
        ),
        (
            &[
                (3, Way::Out, KEY, 1),
                (3, Way::Out, KEY, 2),
                (3, Way::Back, KEY, 1),
            ],
            3,
            2,
            Some((2, 1)),
        ),
        // A node's value, which comes back once as it was.
        (
            &[
                (3, Way::Out, NODE, 101),
                (3, Way::Back, NODE, 101),
                (3, Way::Back, NODE, 102),
            ],
            3,
            2,
            Some((101, 102)),
        ),
        // Elements take nothing out, and bring nothing back.
        (
            &[
                (3, Way::Went, KEY, 1),
                (3, Way::Back, KEY, 2),
                (3, Way::Out, KEY, 3),
                (3, Way::Came, KEY, 4),
            ],
            3,
            2,
            None,
        ),
    ];
    for (lines, first, epochs, shown) in table {
        let audited = audit_events_of(rt.alloc(), &rt, lines)?;
        match (first_clash(rt.alloc(), &audited, first, epochs)?, shown) {
            (Some(clash), Some((evicted, added))) => {
                assert_eq!(rt; clash.evicted, ValueText::of(&value_of(&rt, evicted)));
                assert_eq!(rt; clash.added, ValueText::of(&value_of(&rt, added)));
            }
            (None, None) => {}
            _ => return Err("another clash".into()),
        }
    }
    Ok(())
}

#[test]
fn a_clash_has_the_texts_of_its_values(rt: HostRuntime) -> Result<(), Fail> {
    let lines: [Line; 2] = [(0, Way::Out, KEY, 0), (0, Way::Back, KEY, 7)];
    let audited = audit_events_of(rt.alloc(), &rt, &lines)?;
    match first_clash(rt.alloc(), &audited, 0, 1)? {
        Some(clash) => {
            assert_eq!(rt; clash.evicted.as_slice(), [0].as_slice());
            assert_eq!(rt; clash.added.as_slice(), [1, 1, 7].as_slice());
        }
        None => return Err("no clash".into()),
    }
    Ok(())
}
