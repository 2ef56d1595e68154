//! Vectors of FIPS 180-4 and RFC 4231 in each lane, and texts of 0 to 300 bytes beside the kit's SHA-256.
use crate::digests::{HMACS, bytes_of};
use crate::rows::{field, same, same_bytes};
use lane_sha::{KeyedLanes, Start, block_count, digests, have_one_count};
use record_hash::hmac;
use sha2::{Digest, Sha256};
use std::process::Abort;

// The digests of texts that have one number of blocks, behind a start.
fn digests_of(rt: &impl Abort, start: &Start, texts: &[&[u8]; 8]) -> [[u8; 32]; 8] {
    if !have_one_count(texts) {
        panic!(rt; "texts of several numbers of blocks");
    }
    digests(start, texts)
}

// The HMACs of texts that have one number of blocks.
fn hmacs_of(rt: &impl Abort, keyed: &KeyedLanes, texts: &[&[u8]; 8]) -> [[u8; 32]; 8] {
    if !have_one_count(texts) {
        panic!(rt; "texts of several numbers of blocks");
    }
    keyed.hmacs(texts)
}

// The key as one block (RFC 2104, "K").
fn block_of(key: &[u8]) -> [u8; 64] {
    let hashed = Sha256::digest(key);
    let bytes = if key.len() > 64 { &hashed[..] } else { key };
    let mut block = [0; 64];
    for (cell, byte) in block.iter_mut().zip(bytes.iter()) {
        *cell = *byte;
    }
    block
}

// The bytes from `first` on, each one more than the one before it, modulo 251.
fn message(first: u8) -> [u8; 364] {
    let mut bytes = [0; 364];
    let mut next = first;
    for byte in bytes.iter_mut() {
        *byte = next;
        next = if next == 250 { 0 } else { next.wrapping_add(1) };
    }
    bytes
}

// Eight messages, no two alike.
fn messages() -> [[u8; 364]; 8] {
    [
        message(0),
        message(31),
        message(62),
        message(93),
        message(124),
        message(155),
        message(186),
        message(217),
    ]
}

// How long the text of a lane is, where that of lane 0 has n bytes. All have one number of blocks.
fn length_in(n: u16, lane: u8) -> usize {
    let (n, on) = (usize::from(n), 9 * usize::from(lane));
    if n < 56 {
        (n + on) % 56
    } else {
        let least = (n - 56) / 64 * 64 + 56;
        least + (n - least + on) % 64
    }
}

// Fronts of the messages, that of lane 0 with n bytes.
fn texts_of<'a>(rt: &impl Abort, messages: &'a [[u8; 364]; 8], n: u16) -> [&'a [u8]; 8] {
    let mut texts: [&'a [u8]; 8] = [&[]; 8];
    for lane in 0..8u8 {
        let text = messages[usize::from(lane)].get(..length_in(n, lane));
        texts[usize::from(lane)] = text.expect(rt, "a text past its message");
    }
    texts
}

// This text in one lane, and the other in all others.
fn texts_with<'a>(text: &'a [u8], at: usize, other: &'a [u8]) -> [&'a [u8]; 8] {
    let mut texts: [&'a [u8]; 8] = [&[]; 8];
    for lane in 0..8 {
        texts[lane] = if lane == at { text } else { other };
    }
    texts
}

// A text, and its digest.
const VECTORS: &str = "
abc | ba7816bf8f01cfea414140de5dae2223b00361a396177a9cb410ff61f20015ad
 | e3b0c44298fc1c149afbf4c8996fb92427ae41e4649b934ca495991b7852b855
abcdbcdecdefdefgefghfghighijhijkijkljklmklmnlmnomnopnopq | 248d6a61d20638b8e5c026930c3e6039a33ce45964ff2167f6ecedd419db06c1
abcdefghbcdefghicdefghijdefghijkefghijklfghijklmghijklmnhijklmnoijklmnopjklmnopqklmnopqrlmnopqrsmnopqrstnopqrstu | cf5b16a778af8380036ce59e7b0492370b249b11e8f07a51afac45037afee9d1
";

#[test]
fn vectors_in_each_lane(rt: HostRuntime) {
    let other = message(1);
    for row in VECTORS.trim().lines() {
        let text = field(&rt, row, 0).as_bytes();
        let expected = field(&rt, row, 1);
        let beside = other.get(..text.len()).expect(&rt, "past the message");
        for lane in 0..8 {
            let texts = texts_with(text, lane, beside);
            let found = digests_of(&rt, &Start::new(), &texts);
            let found = hex::encode(rt.alloc(), found[lane]).expect(&rt, "memory");
            same_bytes(&rt, row, found.as_bytes(), expected.as_bytes());
        }
    }
}

#[test]
fn hmacs_of_rfc_4231_in_each_lane(rt: HostRuntime) {
    let other = message(1);
    for row in HMACS.trim().lines() {
        let key = bytes_of(&rt, rt.alloc(), field(&rt, row, 0));
        let text = bytes_of(&rt, rt.alloc(), field(&rt, row, 1));
        let expected = field(&rt, row, 2);
        let keyed = KeyedLanes::new(&block_of(&key));
        let beside = other.get(..text.len()).expect(&rt, "past the message");
        for lane in 0..8 {
            let texts = texts_with(&text, lane, beside);
            let found = hmacs_of(&rt, &keyed, &texts);
            let found = hex::encode(rt.alloc(), found[lane]).expect(&rt, "memory");
            same_bytes(&rt, row, found.as_bytes(), expected.as_bytes());
        }
    }
}

#[test]
fn texts_beside_sha2(rt: HostRuntime) {
    let messages = messages();
    for n in 0..=300 {
        let texts = texts_of(&rt, &messages, n);
        let found = digests_of(&rt, &Start::new(), &texts);
        for lane in 0..8 {
            same_bytes(&rt, "a lane", &found[lane], &Sha256::digest(texts[lane]));
        }
    }
}

#[test]
fn texts_behind_two_blocks(rt: HostRuntime) {
    let messages = messages();
    let (first, second) = ([7; 64], [8; 64]);
    let start = Start::new().after(&first).after(&second);
    for n in [0, 55, 56, 119, 120, 300] {
        let texts = texts_of(&rt, &messages, n);
        let found = digests_of(&rt, &start, &texts);
        for lane in 0..8 {
            let mut whole = Sha256::new_with_prefix(first);
            whole.update(second);
            whole.update(texts[lane]);
            same_bytes(&rt, "a lane", &found[lane], &whole.finalize());
        }
    }
}

#[test]
fn hmacs_beside_record_hash(rt: HostRuntime) {
    let messages = messages();
    let keyed = KeyedLanes::new(&block_of(b"Jefe"));
    for n in [0, 1, 54, 55, 56, 63, 64, 119, 120, 183, 184, 300] {
        let texts = texts_of(&rt, &messages, n);
        let found = hmacs_of(&rt, &keyed, &texts);
        for lane in 0..8 {
            same_bytes(&rt, "a lane", &found[lane], &hmac(b"Jefe", texts[lane]));
        }
    }
}

// How many bytes a text has, and how many blocks it is with its padding.
const COUNTS: &str = "
0 | 1
55 | 1
56 | 2
119 | 2
120 | 3
300 | 5
";

#[test]
fn counts(rt: HostRuntime) {
    let message = message(0);
    for row in COUNTS.trim().lines() {
        let length = field(&rt, row, 0).parse().expect(&rt, "a number");
        let text = message.get(..length).expect(&rt, "past the message");
        let count = field(&rt, row, 1).parse::<usize>().expect(&rt, "a number");
        same(&rt, row, &block_count(text), &count);
        let beside = message.get(..length + 64).expect(&rt, "past the message");
        let texts = [text, text, text, text, text, text, text, beside];
        same(&rt, row, &have_one_count(&texts), &false);
    }
}

#[test]
fn debug_hides_the_key_in_lanes(rt: HostRuntime) {
    let text = format!(in rt.alloc(); "{:?}", KeyedLanes::new(&[1; 64])).expect(&rt, "memory");
    same_bytes(&rt, "text", text.as_bytes(), b"KeyedLanes { ... }");
}
