//! The records in the hot places of a shard.
ghost use Rattle.std.specs.Prelude.{◌≡◌, ◌+◌, ◌<◌, ◌≤◌, length, map, nat_lt, IfSome, IfNone, slice_set};
ghost use Rattle.std.specs.Option.{option_copied};
ghost use Rattle.arrayvec.specs.ArrayVec.{array_vec_len};
ghost use Rattle.stamp_order.specs.InOrder.{put_in_order};
ghost use Rattle.host_shard.specs.declared.content.HotRecord.{HotRecord};
ghost use Rattle.host_shard.specs.Content.{hot};
ghost use Rattle.host_shard.specs.Shown.{shown_content};
ghost use Rattle.protection_moves.specs.Places.{content_of, is_vacant, placed_each, replaced_at, vacated};
ghost use Rattle.protection_moves.specs.Stage.{is_hot_at, placed, replaced, touched_in, untouched_in, vacancies};

use arrayvec::ArrayVec;
use host_shard::{Content, HotRecord};

/// How many hot places a shard has.
pub const HOT_PLACES: usize = 4;

// The touched records in these places, by key.
pub(crate) fn touched_in(places: &[Content]) -> ArrayVec<HotRecord, HOT_PLACES>
    requires few { length places.now ≤ 4 }
    ensures records { result.items ≡ touched_in (map shown_content places.now) }
    ensures len { array_vec_len result ≤ length places.now }
{
    let (first, rest) = match places.split_first() {
        Some(parts) => parts,
        None => return ArrayVec::new(),
    };
    let mut records = touched_in(rest);
    if let Content::Hot(found) = first {
        if found.touches > 0 {
            put(&mut records, found.copy());
        }
    }
    records
}

// The records in these places that were not touched, by key.
pub(crate) fn untouched_in(places: &[Content]) -> ArrayVec<HotRecord, HOT_PLACES>
    requires few { length places.now ≤ 4 }
    ensures records { result.items ≡ untouched_in (map shown_content places.now) }
    ensures len { array_vec_len result ≤ length places.now }
    ensures room { vacancies (map shown_content places.now) + array_vec_len result ≤ length places.now }
{
    let (first, rest) = match places.split_first() {
        Some(parts) => parts,
        None => return ArrayVec::new(),
    };
    let mut records = untouched_in(rest);
    if let Content::Hot(found) = first {
        if found.touches == 0 {
            put(&mut records, found.copy());
        }
    }
    records
}

// How many of these places are vacant.
pub(crate) fn vacancies(places: &[Content]) -> usize
    ensures value { result ≡ vacancies (map shown_content places.now) }
    ensures few { result ≤ length places.now }
{
    let (first, rest) = match places.split_first() {
        Some(parts) => parts,
        None => return 0,
    };
    if is_vacant(first) {
        return vacancies(rest) + 1;
    }
    vacancies(rest)
}

// Whether a content is none.
fn is_vacant(content: &Content) -> bool
    ensures value { result ≡ is_vacant (shown_content content.now) }
{
    matches!(content, Content::Vacant)
}

// Puts a record among others by its key.
fn put(records: &mut ArrayVec<HotRecord, HOT_PLACES>, new: HotRecord)
    requires room { array_vec_len records.old < 4 }
    ensures records { records.new.items ≡ put_in_order (λ a b. nat_lt a.key b.key) new records.old.items }
    ensures len { array_vec_len records.new ≡ array_vec_len records.old + 1 }
{
    let mut index = 0;
    while index < records.len() && records.as_slice()[index].key < new.key {
        index += 1;
    }
    records.insert(index, new);
}

// Puts a record, or nothing, in the place of a key.
pub(crate) fn replace(places: &mut [Content], key: u128, new: Option<&HotRecord>)
    ensures replaced { map shown_content places.new ≡ replaced key (content_of (option_copied new.entry)) (map shown_content places.old) }
{
    for content in places.iter_mut() {
        replace_at(content, key, new);
    }
}

// Puts a record, or nothing, in a place if that is the key's.
fn replace_at(content: &mut Content, key: u128, new: Option<&HotRecord>)
    ensures replaced { shown_content content.new ≡ replaced_at key (content_of (option_copied new.entry)) (shown_content content.old) }
{
    if is_hot_at(content, key) {
        *content = content_of(new);
    }
}

// A place with this record, or none.
fn content_of(found: Option<&HotRecord>) -> Content
    ensures value { shown_content result ≡ content_of (option_copied found.entry) }
{
    match found {
        Some(found) => Content::Hot(found.copy()),
        None => Content::Vacant,
    }
}

// Makes the places of these records vacant.
pub(crate) fn vacate(places: &mut [Content], records: &[HotRecord])
    ensures vacated { map shown_content places.new ≡ vacated records.now (map shown_content places.old) }
{
    if let Some((first, rest)) = records.split_first() {
        replace(places, first.key, None);
        vacate(places, rest);
    }
}

// Puts a record in the lowest vacant place.
fn place(places: &mut [Content], new: &HotRecord)
    ensures placed { map shown_content places.new ≡ placed new.now (map shown_content places.old) }
{
    if let Some(index) = lowest_vacant(places) {
        places[index] = Content::Hot(new.copy());
    }
}

// The lowest vacant place.
fn lowest_vacant(places: &[Content]) -> Option<usize>
    ensures found { IfSome result (λ index. (index < length places.now) × ((new : HotRecord)
        → placed new (map shown_content places.now) ≡ slice_set (map shown_content places.now) index (hot new))) }
    ensures full { IfNone result ((new : HotRecord)
        → placed new (map shown_content places.now) ≡ map shown_content places.now) }
{
    let (first, rest) = match places.split_first() {
        Some(parts) => parts,
        None => return None,
    };
    if is_vacant(first) {
        return Some(0);
    }
    match lowest_vacant(rest) {
        Some(index) => Some(index + 1),
        None => None,
    }
}

// Puts each of these records in the lowest vacant place.
pub(crate) fn place_each(places: &mut [Content], records: &[HotRecord])
    ensures placed { map shown_content places.new ≡ placed_each records.now (map shown_content places.old) }
{
    if let Some((first, rest)) = records.split_first() {
        place(places, first);
        place_each(places, rest);
    }
}

// Whether a content is the record of this hot key.
fn is_hot_at(content: &Content, key: u128) -> bool
    ensures value { result ≡ is_hot_at key (shown_content content.now) }
{
    match content {
        Content::Hot(found) => found.key == key,
        _ => false,
    }
}
