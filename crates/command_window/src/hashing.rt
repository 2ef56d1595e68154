//! What the commands of a window will ask for, hashed eight at a time.
ghost use Rattle.std.specs.Prelude.{◌≡◌, ◌<◌, ◌≤◌, ℕ, List, length, slice_index};
ghost use Rattle.arrayvec.specs.ArrayVec.{array_vec_len};
ghost use Rattle.lane_sha.specs.Lanes.{block};
ghost use Rattle.lane_sha.specs.Texts.{text};
ghost use Rattle.record_hash.specs.Functions.{DigestFunctions};
ghost use Rattle.command_window.specs.Window.{text_at, GoesOn};

use crate::read_command::{Asked, AskedKind};
use arrayvec::ArrayVec;
use lane_sha::block_count;
use record_hash::Digests;

// From so many texts on they are hashed side by side: the first stands for those that are wanting.
const LEAST_TEXTS: usize = 4;

// Texts that are hashed side by side: they ask for the same, and have one number of blocks with what comes before them.
#[derive(Clone, Copy)]
enum Group {
    Digests { blocks: usize },
    Lanes { blocks: usize },
}

impl Group {
    // Whether a text belongs to it. A byte comes before the text of an element.
    fn has(&self, asked: &Asked) -> bool {
        match (self, asked.kind) {
            (Group::Digests { blocks }, AskedKind::Digest) => {
                block_count(asked.text.as_slice()) == *blocks
            }
            (Group::Lanes { blocks }, AskedKind::Lanes) => (asked.text.len() + 73) / 64 == *blocks,
            _ => false,
        }
    }
}

/// Hashes what commands will ask for, eight texts of one number of blocks at a time.
pub(crate) fn hash_all<D: Digests>(asked: &mut [Asked], d: &D)
    ensures goes_on { GoesOn (D.functions d.now) asked.old asked.new }
{
    hash_group(asked, d, Group::Digests { blocks: 1 });
    hash_group(asked, d, Group::Digests { blocks: 2 });
    hash_group(asked, d, Group::Lanes { blocks: 1 });
    hash_group(asked, d, Group::Lanes { blocks: 2 });
}

// Hashes the texts of a group.
fn hash_group<D: Digests>(asked: &mut [Asked], d: &D, group: Group)
    ensures goes_on { GoesOn (D.functions d.now) asked.old asked.new }
{
    let mut places: ArrayVec<usize, 8> = ArrayVec::new();
    for place in 0..asked.len() {
        if group.has(&asked[place]) {
            places.push(place);
            if places.is_full() {
                hash_eight(asked, d, places.as_slice(), group);
                places.clear();
            }
        }
    }
    if places.len() >= LEAST_TEXTS {
        fill_up(&mut places);
        hash_eight(asked, d, places.as_slice(), group);
    }
}

// The first stands for those that are wanting.
fn fill_up(places: &mut ArrayVec<usize, 8>)
    requires some { 0 < array_vec_len places.old }
    ensures full { array_vec_len places.new ≡ 8 }
{
    let first = places[0];
    while !places.is_full() {
        places.push(first);
    }
}

fn hash_eight<D: Digests>(asked: &mut [Asked], d: &D, places: &[usize], group: Group)
    requires eight { length places.now ≡ 8 }
    ensures goes_on { GoesOn (D.functions d.now) asked.old asked.new }
{
    match group {
        Group::Digests { .. } => {
            let digests = d.text_digests(&eight_texts(asked, places));
            note_digests(asked, places, &digests);
        }
        Group::Lanes { .. } => {
            let lanes = d.lanes_of_eight(&eight_texts(asked, places));
            note_all_lanes(asked, places, &lanes);
        }
    }
}

// The texts at eight places.
fn eight_texts<'a>(asked: &'a [Asked], places: &[usize]) -> [&'a [u8]; 8]
    requires eight { length places.now ≡ 8 }
    ensures texts { (j : ℕ) → j < 8 → text j result ≡ text_at asked.now (slice_index places.now j) }
{
    [
        text_at(asked, places[0]),
        text_at(asked, places[1]),
        text_at(asked, places[2]),
        text_at(asked, places[3]),
        text_at(asked, places[4]),
        text_at(asked, places[5]),
        text_at(asked, places[6]),
        text_at(asked, places[7]),
    ]
}

// The digests of the texts at eight places are known now.
fn note_digests(asked: &mut [Asked], places: &[usize], digests: &[[u8; 32]; 8])
    requires eight { length places.now ≡ 8 }
    ensures goes_on { (functions : DigestFunctions)
        → ((j : ℕ) → j < 8 → block j digests.now ≡ functions.digest (text_at asked.old (slice_index places.now j)))
        → GoesOn functions asked.old asked.new }
{
    'places: for j in 0..8 {
        note_digest(asked, places[j], digests[j]);
    }
}

// And so are their lanes.
fn note_all_lanes(asked: &mut [Asked], places: &[usize], lanes: &[[u32; 8]; 8])
    requires eight { length places.now ≡ 8 }
    ensures goes_on { (functions : DigestFunctions)
        → ((j : ℕ) → j < 8 → block j lanes.now ≡ functions.lanes (text_at asked.old (slice_index places.now j)))
        → GoesOn functions asked.old asked.new }
{
    'places: for j in 0..8 {
        note_lanes(asked, places[j], lanes[j]);
    }
}

// The text that is asked for at a place; no bytes, if there is no such place.
fn text_at(asked: &[Asked], place: usize) -> &[u8]
    ensures value { result.now ≡ text_at asked.now place }
{
    if place >= asked.len() {
        return &[];
    }
    asked[place].text.as_slice()
}

// The digest of the text at a place is known now.
fn note_digest(asked: &mut [Asked], place: usize, digest: [u8; 32])
    ensures goes_on { (functions : DigestFunctions) → digest ≡ functions.digest (text_at asked.old place) → GoesOn functions asked.old asked.new }
{
    if place < asked.len() {
        asked[place].digest = Some(digest);
    }
}

fn note_lanes(asked: &mut [Asked], place: usize, lanes: [u32; 8])
    ensures goes_on { (functions : DigestFunctions) → lanes ≡ functions.lanes (text_at asked.old place) → GoesOn functions asked.old asked.new }
{
    if place < asked.len() {
        asked[place].lanes = Some(lanes);
    }
}
