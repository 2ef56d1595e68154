//! Which epoch's added elements are no permutation of its evicted ones, and the elements of an epoch.
//!
//! No verifier evicts two elements with one stamp. So the elements of all epochs that are looked at are sorted once,
//! by stamp and verifier, those that were added and those that were evicted, and compared place by place: where
//! they part, the lower of the two epochs is the first uneven one. That is near linear, whatever the logs are.
ghost use Rattle.std.specs.Prelude.{◌≡◌, map, min, IfOk};
ghost use Rattle.stamp_order.specs.Merged.{merged};
ghost use Rattle.soundness.specs.Certified.{of_epoch};
ghost use Rattle.soundness.specs.Permutation.{same_element};
ghost use Rattle.collision_exhibit.specs.Shown.{added_elements, evicted_elements, uneven_among};
ghost use Rattle.collision_exhibit.specs.Elements.{HaveOwnStamps, evict_moment, is_within, within, parting};

use crate::audit_event::{AuditChange, AuditEvent};
use base_words::Memory;
use record_text::{Element, Elements};
use stamp_order::Moment;
use std::alloc::Global;

/// Of so many epochs from the first on, the first whose added elements are no permutation of its evicted ones.
pub(crate) fn first_uneven(
    alloc: Global,
    audited: &[AuditEvent],
    first: u32,
    epochs: u64,
) -> Result<Option<u32>, Memory>
    requires own_stamps { HaveOwnStamps (evicted_elements audited.now) }
    ensures uneven { IfOk result (λ found. found ≡ uneven_among audited.now first epochs) }
{
    let added = in_order(came_within(alloc, audited, first, epochs)?)?;
    let evicted = in_order(went_within(alloc, audited, first, epochs)?)?;
    Ok(parting(&added, &evicted))
}

/// The elements of an epoch that were added, in order.
pub(crate) fn added_of(
    alloc: Global,
    audited: &[AuditEvent],
    epoch: u32,
) -> Result<Elements, Memory>
    ensures elements { IfOk result (λ e. e ≡ of_epoch epoch (added_elements audited.now)) }
{
    copies(alloc, &came_within(alloc, audited, epoch, 1)?)
}

/// The elements of an epoch that were evicted, in order.
pub(crate) fn evicted_of(
    alloc: Global,
    audited: &[AuditEvent],
    epoch: u32,
) -> Result<Elements, Memory>
    ensures elements { IfOk result (λ e. e ≡ of_epoch epoch (evicted_elements audited.now)) }
{
    copies(alloc, &went_within(alloc, audited, epoch, 1)?)
}

// Whether an element is of one of so many epochs from the first on.
fn is_within(element: &Element, first: u32, epochs: u64) -> bool
    ensures within { result ≡ is_within first epochs element.now }
{
    let epoch = element.stamp.epoch;
    if epoch < first {
        return false;
    }
    u64::from(epoch - first) < epochs
}

// The elements of so many epochs from the first on that were added, in order.
fn came_within(
    alloc: Global,
    audited: &[AuditEvent],
    first: u32,
    epochs: u64,
) -> Result<Vec<&Element>, Memory>
    ensures elements { IfOk result (λ v. map (λ e. e.now) v.items ≡ within first epochs (added_elements audited.now)) }
{
    let mut elements = Vec::new(alloc);
    for item in audited {
        if let AuditChange::AddB(element) = &item.change {
            if is_within(element, first, epochs) {
                elements.push(element)?;
            }
        }
    }
    Ok(elements)
}

// The elements of so many epochs from the first on that were evicted, in order.
fn went_within(
    alloc: Global,
    audited: &[AuditEvent],
    first: u32,
    epochs: u64,
) -> Result<Vec<&Element>, Memory>
    ensures elements { IfOk result (λ v. map (λ e. e.now) v.items ≡ within first epochs (evicted_elements audited.now)) }
{
    let mut elements = Vec::new(alloc);
    for item in audited {
        if let AuditChange::EvictB(element) = &item.change {
            if is_within(element, first, epochs) {
                elements.push(element)?;
            }
        }
    }
    Ok(elements)
}

// When an element was evicted, as far as it tells: not by which command.
fn moment_of_evict(element: &&Element) -> Moment
    ensures moment { result ≡ evict_moment element.now.now }
{
    Moment {
        at: element.stamp,
        verifier: element.verifier,
        index: 0,
    }
}

// The elements in the order of their evicts; those of one stamp and verifier, which only added ones can be, stay as
// they stood.
fn in_order(mut elements: Vec<&Element>) -> Result<Vec<&Element>, Memory>
    ensures order { IfOk result (λ v. map (λ e. e.now) v.items ≡ merged evict_moment (map (λ e. e.now) elements.entry.items)) }
{
    elements.sort_by_key(moment_of_evict)?;
    Ok(elements)
}

// Whether both are the same element.
fn is_same(one: &Element, other: &Element) -> bool
    ensures same { result ≡ same_element one.now other.now }
{
    if one.stamp != other.stamp {
        return false;
    }
    if one.verifier != other.verifier {
        return false;
    }
    if !one.path.is_same(&other.path) {
        return false;
    }
    one.value.is_same(&other.value)
}

// The epoch at which two lists of elements part, if they do: the lower of the two where they first differ, or that
// of the element at which the other list has ended.
fn parting(added: &[&Element], evicted: &[&Element]) -> Option<u32>
    ensures epoch { result ≡ parting (map (λ e. e.now) added.now) (map (λ e. e.now) evicted.now) }
{
    for (i, element) in added.iter().enumerate() {
        match evicted.get(i) {
            None => return Some(element.stamp.epoch),
            Some(other) => {
                if !is_same(element, other) {
                    return Some(element.stamp.epoch.min(other.stamp.epoch));
                }
            }
        }
    }
    match evicted.get(added.len()) {
        None => None,
        Some(other) => Some(other.stamp.epoch),
    }
}

// The same element once more.
fn copy(element: &Element) -> Element
    ensures value { result ≡ element.now }
{
    Element {
        path: element.path,
        value: element.value.copy(),
        stamp: element.stamp,
        verifier: element.verifier,
    }
}

// Copies of these elements, in order.
fn copies(alloc: Global, elements: &[&Element]) -> Result<Elements, Memory>
    ensures elements { IfOk result (λ e. e ≡ map (λ x. x.now) elements.now) }
{
    let mut items = Vec::new(alloc);
    for element in elements {
        items.push(copy(element))?;
    }
    Ok(Elements::of(items))
}
