//! Verdicts on parts that were added up by hand.
ghost use Rattle.std.specs.Prelude.{◌↔◌, ◌≡◌, ◌<◌, ◌^◌, IsTrue};
ghost use Rattle.epoch_gather.specs.Parts.{is_same_part};

use crate::rows::{field, same};
use epoch_gather::{Verdict, verdict};
use multiset_sum::{Part, Sum};
use std::process::Abort;

// The lanes of an element from its letter: those of `a` end in the last number, and those of `z` are 0.
fn lanes_of(letter: u8) -> [u32; 8] {
    match letter {
        b'a' => [1, 2, 3, 4, 5, 6, 7, u32::MAX],
        b'b' => [10, 20, 30, 40, 50, 60, 70, 80],
        _ => [0; 8],
    }
}

// The sum of elements from their letters.
fn sum(letters: &str) -> Sum {
    let mut sum = Sum::zero();
    for letter in letters.as_bytes() {
        if sum.count() < 100 {
            sum = sum.with(lanes_of(*letter));
        }
    }
    sum
}

// Two sums from their text: what was added, a stroke, and what was evicted.
fn sums_of(rt: &impl Abort, text: &str) -> (Sum, Sum) {
    let (added, evicted) = text.split_once('/').expect(rt, "sums without a stroke");
    (sum(added), sum(evicted))
}

// A part from its text: the verifier, a point, the epoch, a colon, and the sums.
fn part_of(rt: &impl Abort, text: &str) -> Part {
    let (place, sums) = text.split_once(':').expect(rt, "a part without sums");
    let (verifier, epoch) = place.split_once('.').expect(rt, "a part without an epoch");
    let (added, evicted) = sums_of(rt, sums);
    Part {
        verifier: verifier.parse().expect(rt, "a number"),
        epoch: epoch.parse().expect(rt, "a number"),
        added,
        evicted,
    }
}

// Three parts from their texts.
fn parts_of(rt: &impl Abort, a: &str, b: &str, c: &str) -> [Part; 3] {
    [part_of(rt, a), part_of(rt, b), part_of(rt, c)]
}

// A verdict from its text: balanced, the verifier that is missing, or the sums.
fn verdict_of(rt: &impl Abort, text: &str) -> Verdict {
    if text == "balanced" {
        return Verdict::Balanced;
    }
    match text.strip_prefix("missing") {
        Some(verifier) => Verdict::Missing(verifier.parse().expect(rt, "a number")),
        None => {
            let (added, evicted) = sums_of(rt, text);
            Verdict::Unbalanced(added, evicted)
        }
    }
}

// Whether a part is of one of so many verifiers, with small counts.
fn is_fit(part: &Part, verifiers: u16) -> bool
    ensures fit { IsTrue result ↔ ((part.now.verifier < verifiers) × (part.now.added.count < 2 ^ 25) × (part.now.evicted.count < 2 ^ 25)) }
{
    part.verifier < verifiers && (part.added.count() < 1 << 25 && part.evicted.count() < 1 << 25)
}

fn is_same_part(part: &Part, other: &Part) -> bool
    ensures value { result ≡ is_same_part part.now other.now }
{
    part.verifier == other.verifier && part.epoch == other.epoch
}

// The verdict on three parts, if they are of different verifiers or epochs.
fn verdict_on(parts: &[Part; 3], verifiers: u16, epoch: u32) -> Option<Verdict> {
    let [a, b, c] = parts;
    if verifiers == 0 || verifiers > 64 {
        return None;
    }
    if !is_fit(a, verifiers) || !is_fit(b, verifiers) || !is_fit(c, verifiers) {
        return None;
    }
    if is_same_part(a, b) || is_same_part(a, c) || is_same_part(b, c) {
        return None;
    }
    Some(verdict(parts, verifiers, epoch))
}

// The parts, the number of verifiers, the epoch, and the verdict. In the first two rows each verifier by itself
// is unbalanced in epoch 0, and both together are not; then one element is taken back twice, then what is taken
// back isn't what was evicted, as many times, and then an element's lanes are all 0.
const VERDICTS: &str = "
1.0:a/b 0.1:a/ 0.0:b/a 2 0 balanced
1.0:a/b 0.1:a/ 0.0:b/a 2 1 missing1
0.0:a/a 1.0:a/ 1.1:/a 2 0 aa/a
0.4:aa/b 1.4:/a 2.4:/ 3 4 aa/ba
2.4:/z 1.4:/ 0.4:/ 3 4 /z
0.0:/ 3.0:/ 1.1:/ 4 0 missing1
0.0:/ 3.0:/ 1.1:/ 4 1 missing0
0.0:/ 3.0:/ 1.1:/ 64 7 missing0
";

// The three parts of a row.
fn parts_in(rt: &impl Abort, row: &str) -> [Part; 3] {
    parts_of(rt, field(rt, row, 0), field(rt, row, 1), field(rt, row, 2))
}

#[test]
fn verdicts_are_by_all_verifiers(rt: HostRuntime) {
    for row in VERDICTS.trim().lines() {
        let parts = parts_in(&rt, row);
        let verifiers = field(&rt, row, 3).parse().expect(&rt, "a number");
        let epoch = field(&rt, row, 4).parse().expect(&rt, "a number");
        let found = verdict_on(&parts, verifiers, epoch);
        same(&rt, row, &found, &Some(verdict_of(&rt, field(&rt, row, 5))));
    }
}

// The two sums of a verdict, if it has them.
fn sums_in(verdict: Option<Verdict>) -> Option<(Sum, Sum)> {
    match verdict? {
        Verdict::Unbalanced(added, evicted) => Some((added, evicted)),
        _ => None,
    }
}

#[test]
fn both_sums_are_handed_out(rt: HostRuntime) {
    let parts = parts_of(&rt, "0.4:aa/b", "1.4:/a", "2.4:/");
    let (added, evicted) = sums_in(verdict_on(&parts, 3, 4)).expect(&rt, "the sums are one");
    let lanes = [2, 4, 6, 8, 10, 12, 14, 8_589_934_590];
    same(&rt, "added", &added.lanes(), &lanes);
    same(&rt, "how many were added", &added.count(), &2);
    let lanes = [11, 22, 33, 44, 55, 66, 77, 4_294_967_375];
    same(&rt, "evicted", &evicted.lanes(), &lanes);
    same(&rt, "how many were evicted", &evicted.count(), &2);
}
