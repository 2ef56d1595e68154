//! Lists of operations that stand in order each, merged where they stand.
ghost use Rattle.std.specs.Prelude.{◌≡◌, ◌≢◌, ℕ, ◌+◌, ◌<◌, ◌≤◌, ◌++◌, ◌∷◌, [], true, false, None, IfOk, IfSome, IsOk, OnOk, length, vec_len, vec_capacity};
ghost use Rattle.std.specs.List.{AllByRecursion};
ghost use Rattle.stamp_order.specs.InOrder.{in_order};
ghost use Rattle.stamp_order.specs.Merged.{merged};
ghost use Rattle.stamp_order.specs.Operations.{moment_of};
ghost use Rattle.stamp_order.specs.Lists.{all_of, AreMerged};
ghost use Rattle.stamp_order.specs.Places.{all_at, all_from, begins_sooner, is_sooner, left_at, list_at, GoesTo, IsPutIn, StandByStart};

use crate::headed::Headed;
use crate::moment::Moment;
use base_words::Memory;
use operation_queue::Operations;
use record_text::OperationRef;
use std::alloc::Global;
use std::cmp::Ordering;
use std::marker::Model;

/// The operations of lists that stand in order each, as they come in the one order. None is copied. Contracts see the list of
/// those that are left.
#[derive(Drop)]
pub struct Merger<'a> {
    lists: Vec<Headed<'a>>,
    // The places of the lists that have operations left, that of the list with the first of all at the end.
    places: Vec<usize>,
    left: usize,
}

impl<'a> Model for Merger<'a> {
    ghost use Rattle.std.specs.Prelude.{List};
    ghost use Rattle.record_text.specs.declared.operation.Operation.{Operation};
    ghost use Rattle.stamp_order.specs.Places.{left_at, IsStanding};

    ghost Value = { List Operation };

    ghost view = { λ m. left_at m.lists.items m.places.items };

    ghost invariant = { λ m. IsStanding m.lists.items m.places.items m.left };
}

impl<'a> Merger<'a> {
    /// Of these lists. Of operations of one moment those of the first list come first. That they are more than can be counted is
    /// want of memory too.
    pub fn new(alloc: Global, lists: Vec<Operations<'a>>) -> Result<Self, Memory>
        requires in_order { AreMerged lists.items }
        ensures all { IfOk result (λ merger. merger ≡ merged moment_of (all_of lists.entry.items)) }
    {
        let left = count_of(&lists)?;
        let lists = headed(alloc, lists)?;
        let places = places_of(alloc, &lists)?;
        Ok(Merger {
            lists,
            places,
            left,
        })
    }

    /// How many are left.
    pub fn len(&self) -> usize
        ensures value { result ≡ length self.now }
    {
        self.left
    }

    /// Takes the first, if any is left.
    pub fn next(&mut self) -> Option<OperationRef<'a>>
        ensures some { IfSome result (λ first. self.old ≡ first ∷ self.new) }
        ensures none { result ≡ None → (self.old ≡ []) × (self.new ≡ []) }
    {
        let first = take_first(&mut self.lists, &mut self.places)?;
        self.left -= 1;
        Some(first)
    }
}

// How many operations lists have in all, if that can be counted.
fn count_of(lists: &[Operations]) -> Result<usize, Memory>
    ensures count { IfOk result (λ count. count ≡ length (all_of lists.now)) }
{
    let mut count: usize = 0;
    for list in lists {
        let Some(more) = count.checked_add(list.len()) else {
            return Err(Memory);
        };
        count = more;
    }
    Ok(count)
}

// The lists, with the first of each at hand.
fn headed<'a>(alloc: Global, lists: Vec<Operations<'a>>) -> Result<Vec<Headed<'a>>, Memory>
    ensures same { IfOk result (λ v. v.items ≡ lists.entry.items) }
{
    let mut headed = Vec::new(alloc);
    headed.reserve(lists.len())?;
    for list in lists {
        headed.push(Headed::new(list))?;
    }
    Ok(headed)
}

// The places of the lists that have operations, by how the lists begin.
fn places_of(alloc: Global, lists: &[Headed]) -> Result<Vec<usize>, Memory>
    ensures standing { IfOk result (λ v. StandByStart lists.now v.items) }
    ensures all { IfOk result (λ v. in_order is_sooner (all_at lists.now v.items) ≡ in_order is_sooner (all_from 0 lists.now)) }
{
    let mut places = Vec::new(alloc);
    for place in (0..lists.len()).rev() {
        if has_some(lists, place) {
            put_place(lists, &mut places, place)?;
        }
    }
    Ok(places)
}

// Takes the operation that is the first of all, if any is left.
fn take_first<'a>(lists: &mut [Headed<'a>], places: &mut Vec<usize>) -> Option<OperationRef<'a>>
    requires in_order { AreMerged lists.old }
    requires standing { StandByStart lists.old places.old.items }
    ensures some { IfSome result (λ first. left_at lists.old places.old.items ≡ first ∷ left_at lists.new places.new.items) }
    ensures none { result ≡ None → (left_at lists.old places.old.items ≡ []) × (left_at lists.new places.new.items ≡ []) }
    ensures in_order { AreMerged lists.new }
    ensures standing { StandByStart lists.new places.new.items }
{
    let place = places.pop()?;
    let first = lists[place].take();
    if has_some(lists, place) {
        put_place(lists, places, place).unwrap();
    }
    first
}

// Puts the place of a list among those of others that stand by how the lists begin. It can fail only where there is no room.
fn put_place(lists: &[Headed], places: &mut Vec<usize>, place: usize) -> Result<(), Memory>
    requires some { 0 < length (list_at lists.now place) }
    requires standing { StandByStart lists.now places.old.items }
    requires apart { AllByRecursion (λ q. q ≢ place) places.old.items }
    ensures put { OnOk result (IsPutIn lists.now place places.old.items places.new.items) }
    ensures succeeds { vec_len places.old < vec_capacity places.old → IsOk result }
{
    let at = place_for(lists, places, place);
    places.insert(at, place)?;
    Ok(())
}

// Where a place goes.
fn place_for(lists: &[Headed], places: &[usize], place: usize) -> usize
    requires some { 0 < length (list_at lists.now place) }
    requires standing { StandByStart lists.now places.now }
    requires apart { AllByRecursion (λ q. q ≢ place) places.now }
    ensures goes { GoesTo lists.now place places.now result }
{
    let mut from = 0;
    let mut to = places.len();
    'search: while from < to {
        let middle = from + (to - from) / 2;
        if begins_sooner(lists, place, places[middle]) {
            from = middle + 1;
        } else {
            to = middle;
        }
    }
    from
}

// Whether the list at a place has operations left.
fn has_some(lists: &[Headed], place: usize) -> bool
    requires within { place < length lists.now }
    ensures some { result ≡ true → 0 < length (list_at lists.now place) }
    ensures none { result ≡ false → list_at lists.now place ≡ [] }
{
    lists[place].first().is_some()
}

// Whether the list at a place begins sooner than that at another.
fn begins_sooner(lists: &[Headed], place: usize, other: usize) -> bool
    requires within { (place < length lists.now) × (other < length lists.now) }
    ensures value { result ≡ begins_sooner lists.now place other }
{
    match (lists[place].first(), lists[other].first()) {
        (Some(first), Some(second)) => is_sooner(place, first, other, second),
        _ => false,
    }
}

// Whether an operation comes before another, where these are the places of their lists.
fn is_sooner(place: usize, first: &OperationRef, other: usize, second: &OperationRef) -> bool
    ensures value { result ≡ is_sooner (place, first.now) (other, second.now) }
{
    match Moment::of_ref(first).cmp(&Moment::of_ref(second)) {
        Ordering::Less => true,
        Ordering::Greater => false,
        Ordering::Equal => place < other,
    }
}
