//! Uneven epochs that were found by hand.
ghost use Rattle.std.specs.Prelude.{◌≡◌};

use crate::audit_event::{AuditChange, AuditEvent};
use crate::elements::{added_of, evicted_of, first_uneven};
use base_words::Memory;
use lamport_clocks::Stamp;
use record_text::{Blob, Element, Value};
use stamp_order::Moment;
use std::alloc::Global;
use std::test::Fail;
use tree_keys::Path;

// The epoch and counter of a stamp, and the verifier that evicted with it.
type Spot = (u32, u32, u16);

fn element(spot: Spot) -> Element
    ensures verifier { result.verifier ≡ spot.2 }
{
    let (epoch, counter, verifier) = spot;
    Element {
        path: Path::root(),
        value: Value::Blob(Blob::none()),
        stamp: Stamp { epoch, counter },
        verifier,
    }
}

fn item(change: AuditChange) -> AuditEvent
    ensures change { result.change ≡ change }
{
    let at = Stamp {
        epoch: 0,
        counter: 0,
    };
    AuditEvent {
        moment: Moment {
            at,
            verifier: 0,
            index: 0,
        },
        change,
    }
}

// Verifier 0 evicted with the one stamp and verifier 1 with the other, and these two were added. The first of so many
// epochs that is uneven.
fn uneven_of(
    alloc: Global,
    evicted: [(u32, u32); 2],
    added: [Spot; 2],
    first: u32,
    epochs: u64,
) -> Result<Option<u32>, Memory> {
    let audited = [
        item(AuditChange::EvictB(element((evicted[0].0, evicted[0].1, 0)))),
        item(AuditChange::AddB(element(added[0]))),
        item(AuditChange::EvictB(element((evicted[1].0, evicted[1].1, 1)))),
        item(AuditChange::AddB(element(added[1]))),
    ];
    first_uneven(alloc, &audited, first, epochs)
}

#[test]
fn the_first_uneven_epoch_is_found(rt: HostRuntime) -> Result<(), Fail> {
    // the stamps of the evicts of verifiers 0 and 1, the two elements that were added, the first epoch, how many
    // epochs, and the first that is uneven
    let table = [
        // Equal, in another order, and two verifiers with one stamp.
        ([(0, 1), (0, 1)], [(0, 1, 1), (0, 1, 0)], 0, 1, None),
        ([(0, 1), (3, 2)], [(3, 2, 1), (0, 1, 0)], 0, 4, None),
        // One is missing: what was added in its place is of an epoch that isn't looked at.
        ([(0, 1), (0, 2)], [(0, 1, 0), (9, 2, 1)], 0, 1, Some(0)),
        // One was added twice.
        ([(0, 1), (0, 2)], [(0, 1, 0), (0, 1, 0)], 0, 1, Some(0)),
        ([(0, 1), (0, 2)], [(0, 2, 1), (0, 2, 1)], 0, 1, Some(0)),
        // One was evicted by another verifier than was said.
        ([(0, 1), (0, 1)], [(0, 1, 0), (0, 1, 2)], 0, 1, Some(0)),
        // An element came back to another epoch.
        ([(0, 1), (3, 1)], [(0, 1, 0), (4, 1, 1)], 0, 3, None),
        ([(0, 1), (3, 1)], [(0, 1, 0), (4, 1, 1)], 0, 4, Some(3)),
        (
            [(0, 1), (3, 1)],
            [(0, 1, 0), (4, 1, 1)],
            4,
            u64::MAX,
            Some(4),
        ),
        ([(0, 1), (3, 1)], [(0, 1, 0), (4, 1, 1)], 5, u64::MAX, None),
        // Two epochs are uneven.
        ([(2, 1), (7, 1)], [(8, 1, 0), (8, 1, 1)], 0, 20, Some(2)),
        ([(2, 1), (7, 1)], [(8, 1, 0), (8, 1, 1)], 3, 20, Some(7)),
        // The last epoch of all.
        (
            [(u32::MAX, 0), (u32::MAX, 1)],
            [(u32::MAX, 0, 0), (0, 1, 1)],
            u32::MAX,
            1,
            Some(u32::MAX),
        ),
        ([(2, 1), (7, 1)], [(8, 1, 0), (8, 1, 1)], 0, 0, None),
    ];
    for (evicted, added, first, epochs, uneven) in table {
        assert_eq!(rt;
            uneven_of(rt.alloc(), evicted, added, first, epochs)?,
            uneven
        );
    }
    Ok(())
}

#[test]
fn the_elements_of_an_epoch_are_told_by_their_way(rt: HostRuntime) -> Result<(), Fail> {
    let audited = [
        item(AuditChange::AddB(element((1, 3, 0)))),
        item(AuditChange::EvictB(element((1, 1, 1)))),
        item(AuditChange::AddB(element((2, 1, 0)))),
        item(AuditChange::AddB(element((1, 2, 0)))),
    ];
    let added = added_of(rt.alloc(), &audited, 1)?;
    let evicted = evicted_of(rt.alloc(), &audited, 1)?;
    let both = [element((1, 3, 0)), element((1, 2, 0))];
    assert_eq!(rt; added.as_slice(), both.as_slice());
    assert_eq!(rt; evicted.as_slice(), [element((1, 1, 1))].as_slice());
    assert!(rt; evicted_of(rt.alloc(), &audited, 2)?.as_slice().is_empty());
    Ok(())
}
