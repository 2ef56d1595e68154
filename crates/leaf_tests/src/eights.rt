//! Eight texts at once, and digests of which some are known: each answer is that of the one call for the one text.
ghost use Rattle.std.specs.Prelude.{◌+◌, ◌*◌, ◌≤◌};

use crate::rows::{same, same_bytes};
use record_hash::{Digests, KnownDigests, ShaDigests, ToyDigests};
use std::process::Abort;

// The bytes 0, 1, 2 and so on.
fn message() -> [u8; 200] {
    let mut bytes = [0; 200];
    let mut next = 0u8;
    for byte in bytes.iter_mut() {
        *byte = next;
        next = next.wrapping_add(1);
    }
    bytes
}

// Eight fronts of a message, of lengths that rise by so much.
fn fronts(message: &[u8; 200], shortest: usize, step: usize) -> [&[u8]; 8]
    requires within { shortest + 7 * step ≤ 200 }
{
    [
        &message[..shortest],
        &message[..shortest + step],
        &message[..shortest + 2 * step],
        &message[..shortest + 3 * step],
        &message[..shortest + 4 * step],
        &message[..shortest + 5 * step],
        &message[..shortest + 6 * step],
        &message[..shortest + 7 * step],
    ]
}

// Compares both calls for eight texts with those for one.
fn compare<D: Digests>(rt: &impl Abort, row: &str, digests: &D, texts: &[&[u8]; 8]) {
    let together = digests.text_digests(texts);
    let lanes = digests.lanes_of_eight(texts);
    for j in 0..8 {
        same_bytes(rt, row, &together[j], &digests.text_digest(texts[j]));
        same(rt, row, &lanes[j], &digests.element_lanes(texts[j]));
    }
}

#[test]
fn eight_are_as_one_after_another(rt: HostRuntime) {
    let message = message();
    let sha = ShaDigests::new(b"key");
    compare(&rt, "of 0 to 49 bytes", &sha, &fronts(&message, 0, 7));
    compare(&rt, "of 40 bytes to 68", &sha, &fronts(&message, 40, 4));
    compare(&rt, "of 93 bytes", &sha, &fronts(&message, 93, 0));
    compare(&rt, "of 112 bytes to 119", &sha, &fronts(&message, 112, 1));
    compare(&rt, "of 117 bytes to 131", &sha, &fronts(&message, 117, 2));
    compare(&rt, "of 0 to 196 bytes", &sha, &fronts(&message, 0, 28));
    compare(&rt, "by sums", &ToyDigests, &fronts(&message, 0, 28));
}

#[test]
fn a_known_text_is_compared(rt: HostRuntime) {
    let sha = ShaDigests::new(b"key");
    let digest = sha.text_digest(b"abc");
    let lanes = sha.element_lanes(b"abc");
    let known = KnownDigests {
        digests: &sha,
        digest: Some((b"abc", digest)),
        lanes: Some((b"abc", lanes)),
    };
    for text in [&b"abc"[..], &b"abd"[..], &b"ab"[..], &b""[..]] {
        same_bytes(
            &rt,
            "digest",
            &known.text_digest(text),
            &sha.text_digest(text),
        );
        same(
            &rt,
            "lanes",
            &known.element_lanes(text),
            &sha.element_lanes(text),
        );
        same_bytes(&rt, "tag", &known.tag(text), &sha.tag(text));
    }
    let message = message();
    compare(&rt, "eight", &known, &fronts(&message, 3, 9));
}
