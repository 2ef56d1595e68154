//! Verifiers side by side: the run of each takes its log, and what it has sealed is handed in.
ghost use Rattle.std.specs.Prelude.{◌≡◌, ◌<◌, ℕ, false, length, slice_index_or};
ghost use Rattle.epoch_book.specs.Passes.{number_of};
ghost use Rattle.host_rounds.specs.declared.with_passes.WithPasses.{WithPasses};
ghost use Rattle.host_rounds.specs.WithPasses.{passes_in};
ghost use Rattle.host_rounds.specs.Sealing.{CanTake, HasRead, HasPartsOf, IsNewPass, AreNewPasses, HasHandedIn, HaveHandedIn};

use crate::with_passes::WithPasses;
use certified_epochs::FedRun;
use epoch_book::{EpochBook, Pass};
use host_log::LogBuffer;
use record_hash::Digests;
use std::thread::{Threads, for_each_mut};

/// Each verifier's run takes its log, in a thread of its own where one can be made, and there what it has of each epoch that has
/// a book is handed in.
pub(crate) fn seal_all<R: Threads + Sync, D: Digests + Sync>(
    rt: &R,
    d: &D,
    logs: &[LogBuffer],
    books: &[EpochBook],
    sealers: &mut [WithPasses],
)
    requires ready { (i : ℕ) (default : WithPasses) → i < length sealers.old
        → CanTake (D.functions d.now) i logs.now (slice_index_or sealers.old i default).run
        × AreNewPasses books.now i (passes_in (slice_index_or sealers.old i default)) }
    ensures len { length sealers.new ≡ length sealers.old }
    ensures sealed { (i : ℕ) (default : WithPasses) → i < length sealers.old
        → HasRead (D.functions d.now) i logs.now (slice_index_or sealers.old i default).run (slice_index_or sealers.new i default).run
        × HaveHandedIn books.now i (slice_index_or sealers.new i default).run (passes_in (slice_index_or sealers.new i default)) }
{
    let threads = sealers.len().max(1);
    for_each_mut(
        rt,
        sealers,
        threads,
        &|number: usize, sealer: &mut WithPasses|
            requires { CanTake (D.functions d.now) number logs.now sealer.now.run × AreNewPasses books.now number (passes_in sealer.now) }
            ensures { HasRead (D.functions d.entry.now) number logs.entry.now sealer.entry.now.run sealer.exit.now.run
                × HaveHandedIn books.entry.now number sealer.exit.now.run (passes_in sealer.exit.now) }
        { seal_own(d, logs, books, number, sealer) },
    );
}

// The run of the verifier of this number takes its log, and what it then has of each epoch that has a book is handed in.
fn seal_own<D: Digests>(
    d: &D,
    logs: &[LogBuffer],
    books: &[EpochBook],
    number: usize,
    sealer: &mut WithPasses,
)
    requires can { CanTake (D.functions d.now) number logs.now sealer.old.run }
    requires passes { AreNewPasses books.now number (passes_in sealer.old) }
    ensures taken { HasRead (D.functions d.now) number logs.now sealer.old.run sealer.new.run }
    ensures handed { HaveHandedIn books.now number sealer.new.run (passes_in sealer.new) }
{
    take_own(d, logs, number, &mut sealer.run);
    let run = &sealer.run;
    let passes = sealer.passes.as_mut_slice();
    for index in 0..books.len() {
        hand_own(&books[index], index, run, &mut passes[index]);
    }
}

// The run of the verifier of this number takes its log.
fn take_own<D: Digests>(d: &D, logs: &[LogBuffer], number: usize, fed: &mut FedRun)
    requires can { CanTake (D.functions d.now) number logs.now fed.old }
    ensures taken { HasRead (D.functions d.now) number logs.now fed.old fed.new }
    ensures parts { fed.new.is_starved ≡ false → HasPartsOf number fed.new.run }
{
    fed.feed(d, logs[number].bytes());
}

// A verifier hands in what its run has of the epoch at this place, if the run has sealed it.
fn hand_own(book: &EpochBook, index: usize, fed: &FedRun, pass: &mut Pass)
    requires pass { IsNewPass book.now (number_of pass.old) pass.old }
    requires parts { fed.now.is_starved ≡ false → HasPartsOf (number_of pass.old) fed.now.run }
    ensures handed { HasHandedIn book.now index (number_of pass.old) fed.now pass.new }
{
    if fed.is_starved {
        return;
    }
    if let Some(part) = fed.run.parts().get(index) {
        book.hand_in(pass, *part);
    }
}
