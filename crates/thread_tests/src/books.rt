//! Books that 64 threads fill, against the verdict on the same parts.
ghost use Rattle.std.specs.Prelude.{◌≡◌, ◌<◌, ◌^◌, None, All, IfOk};
ghost use Rattle.std.specs.List.{IsDistinct};
ghost use Rattle.epoch_gather.specs.Parts.{is_same_part};
ghost use Rattle.epoch_book.specs.Passes.{AreAllPassesOf, IsPassOf, number_of, part_of};

use base_words::Memory;
use epoch_book::{EpochBook, Pass};
use epoch_gather::{Verdict, verdict};
use multiset_sum::{Part, Sum};
use std::alloc::Global;
use std::test::Fail;
use std::thread::{Threads, for_each_mut};

const VERIFIERS: u16 = 64;

const EPOCH: u32 = 3;

// Which element each verifier evicts, where each adds the one of its own number, and who hands nothing in.
#[derive(Clone, Copy)]
enum Case {
    // The one of the next verifier: each by itself is unbalanced.
    TheNext,
    // Its own, but verifier 5 that of verifier 6.
    OneOfTwo,
    // Its own, and verifiers 7 and 40 hand nothing in.
    TwoAreMissing,
}

impl Case {
    fn evicted_by(self, verifier: u16) -> u16 {
        match self {
            Case::TheNext => (verifier % VERIFIERS + 1) % VERIFIERS,
            Case::OneOfTwo if verifier == 5 => 6,
            _ => verifier,
        }
    }

    fn is_there(self, verifier: u16) -> bool {
        match self {
            Case::TwoAreMissing => verifier != 7 && verifier != 40,
            _ => true,
        }
    }

    fn part(self, verifier: u16) -> Part
        ensures part { (result.verifier ≡ verifier) × (result.epoch ≡ EPOCH) }
        ensures counts { (result.added.count < 2 ^ 25) × (result.evicted.count < 2 ^ 25) }
    {
        Part {
            verifier,
            epoch: EPOCH,
            added: sum_of(verifier),
            evicted: sum_of(self.evicted_by(verifier)),
        }
    }

    // All parts that are handed in.
    fn parts(self, alloc: Global) -> Result<Vec<Part>, Memory>
        ensures numbers { IfOk result (λ parts. All (λ part. part.verifier < VERIFIERS) parts.items) }
        ensures once { IfOk result (λ parts. IsDistinct is_same_part parts.items) }
        ensures counts { IfOk result (λ parts.
            All (λ part. (part.added.count < 2 ^ 25) × (part.evicted.count < 2 ^ 25)) parts.items) }
    {
        let mut parts = Vec::new(alloc);
        for verifier in 0..VERIFIERS {
            if self.is_there(verifier) {
                parts.push(self.part(verifier))?;
            }
        }
        Ok(parts)
    }
}

// The sum of one element, whose lanes are its number, one more, and so on.
fn sum_of(element: u16) -> Sum
    ensures one { result.count ≡ 1 }
{
    let first = u32::from(element);
    Sum::zero().with([
        first,
        first + 1,
        first + 2,
        first + 3,
        first + 4,
        first + 5,
        first + 6,
        first + 7,
    ])
}

// Each verifier hands its part in from a thread of its own.
fn hand_in_all<R: Threads + Sync>(rt: &R, book: &EpochBook, passes: &mut [Pass], case: Case)
    requires all { AreAllPassesOf book.now passes.old }
    requires empty { All (λ pass. part_of pass ≡ None) passes.old }
    ensures all { AreAllPassesOf book.now passes.new }
{
    for_each_mut(
        rt,
        passes,
        usize::from(VERIFIERS),
        &|_: usize, pass: &mut Pass|
            requires { IsPassOf book.now pass.old × (part_of pass.old ≡ None) }
            ensures { IsPassOf book.entry.now pass.new × (number_of pass.new ≡ number_of pass.old) }
        {
            if case.is_there(pass.number()) {
                book.hand_in(pass, case.part(pass.number()));
            }
        },
    );
}

// What a book says of the case, and what the verdict on its parts is.
fn settled<R: Threads + Sync>(
    rt: &R,
    alloc: Global,
    case: Case,
) -> Result<(Verdict, Verdict), Memory> {
    let (book, mut passes) = EpochBook::new(alloc, VERIFIERS)?;
    hand_in_all(rt, &book, &mut passes, case);
    let parts = case.parts(alloc)?;
    Ok((book.settle(passes), verdict(&parts, VERIFIERS, EPOCH)))
}

#[test]
fn a_book_balances_over_all_verifiers(rt: HostRuntime) -> Result<(), Fail> {
    let (found, wanted) = settled(&rt, rt.alloc(), Case::TheNext)?;
    assert_eq!(rt; found, Verdict::Balanced);
    assert_eq!(rt; found, wanted);
    Ok(())
}

#[test]
fn both_sums_are_those_of_all_parts(rt: HostRuntime) -> Result<(), Fail> {
    let (found, wanted) = settled(&rt, rt.alloc(), Case::OneOfTwo)?;
    assert_eq!(rt; found, wanted);
    let Verdict::Unbalanced(added, evicted) = found else {
        return Err(Fail::from("the sums are one"));
    };
    assert_eq!(rt;
        added.lanes(),
        [2016, 2080, 2144, 2208, 2272, 2336, 2400, 2464]
    );
    assert_eq!(rt; added.count(), 64);
    assert_eq!(rt;
        evicted.lanes(),
        [2017, 2081, 2145, 2209, 2273, 2337, 2401, 2465]
    );
    assert_eq!(rt; evicted.count(), 64);
    Ok(())
}

#[test]
fn the_lowest_without_a_part_is_missing(rt: HostRuntime) -> Result<(), Fail> {
    let (found, wanted) = settled(&rt, rt.alloc(), Case::TwoAreMissing)?;
    assert_eq!(rt; found, Verdict::Missing(7));
    assert_eq!(rt; found, wanted);
    Ok(())
}
