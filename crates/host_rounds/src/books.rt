//! The books of the epochs that a round may seal: they are opened, and settled.
ghost use Rattle.std.specs.Prelude.{◌≡◌, ◌≤◌, ◌<◌, ℕ, [], IfOk, OnOk, length, map, get_or, slice_index_or};
ghost use Rattle.std.specs.List.{AllByRecursion};
ghost use Rattle.std.specs.Vec.Iter.{into_iter_items};
ghost use Rattle.epoch_book.specs.declared.book.EpochBook.{EpochBook};
ghost use Rattle.epoch_book.specs.Passes.{verifiers_of};
ghost use Rattle.bundle_report.specs.declared.judged.Judged.{Judged};
ghost use Rattle.certified_epochs.specs.declared.fed_run.FedRun.{FedRun};
ghost use Rattle.certified_epochs.specs.Turn.{AreFed, AreVerdictsOn};
ghost use Rattle.host_rounds.specs.declared.with_passes.WithPasses.{WithPasses};
ghost use Rattle.host_rounds.specs.WithPasses.{run_in, passes_in};
ghost use Rattle.host_rounds.specs.Sealing.{AreNewPasses, HaveHandedIn};

use crate::with_passes::{WithPasses, deal, next_of_each};
use base_words::Memory;
use certified_epochs::FedRun;
use epoch_book::{EpochBook, Pass};
use epoch_gather::Verdict;
use std::alloc::Global;
use std::vec::IntoIter;

/// So many books, of which each verifier takes its passes.
pub(crate) fn open_books(
    alloc: Global,
    count: usize,
    all: &mut [WithPasses],
) -> Result<Vec<EpochBook>, Memory>
    requires some { (1 ≤ length all.old) × (length all.old ≤ 64) }
    requires none { AllByRecursion (λ one. passes_in one ≡ []) all.old }
    ensures count { IfOk result (λ books. length books.items ≡ count) }
    ensures verifiers { IfOk result (λ books. AllByRecursion (λ book. verifiers_of book ≡ length all.old) books.items) }
    ensures passes { IfOk result (λ books. (i : ℕ) (one : WithPasses) → i < length all.old
        → AreNewPasses books.items i (passes_in (slice_index_or all.new i one))) }
    ensures runs { OnOk result (map run_in all.new ≡ map run_in all.old) }
    ensures len { OnOk result (length all.new ≡ length all.old) }
{
    let verifiers = all.len() as u16;
    let mut books = Vec::with_capacity(alloc, count)?;
    for _ in 0..count {
        let (book, passes) = EpochBook::new(alloc, verifiers)?;
        deal(passes, all)?;
        books.push(book)?;
    }
    Ok(books)
}

/// The verdict of each book on what the runs have handed in, unless memory was wanting for one of the runs.
pub(crate) fn settle_all(
    alloc: Global,
    books: Vec<EpochBook>,
    runs: &[FedRun],
    passes: Vec<IntoIter<Pass>>,
) -> Result<Vec<Verdict>, Memory>
    requires verifiers { AllByRecursion (λ book. verifiers_of book ≡ length runs.now) books.items }
    requires as_many { length passes.items ≡ length runs.now }
    requires handed { (i : ℕ) (fed : FedRun) (one : IntoIter Pass Global) → i < length runs.now
        → HaveHandedIn books.items i (get_or runs.now i fed) (into_iter_items (get_or passes.items i one)) }
    ensures fed { OnOk result (AreFed runs.now) }
    ensures count { IfOk result (λ verdicts. length verdicts.items ≡ length books.items) }
    ensures settled { (judged : Judged) → IfOk result (λ verdicts. AreVerdictsOn judged (map (λ fed. fed.run) runs.now) verdicts.items) }
{
    all_are_fed(runs)?;
    let mut passes = passes;
    let mut verdicts = Vec::with_capacity(alloc, books.len())?;
    let mut books = books.into_iter();
    while let Some(book) = books.next() {
        let own = next_of_each(alloc, passes.as_mut_slice())?;
        verdicts.push(book.settle(own))?;
    }
    Ok(verdicts)
}

// Whether memory was wanting for none of the runs.
fn all_are_fed(runs: &[FedRun]) -> Result<(), Memory>
    ensures fed { OnOk result (AreFed runs.now) }
{
    for fed in runs {
        if fed.is_starved {
            return Err(Memory);
        }
    }
    Ok(())
}
