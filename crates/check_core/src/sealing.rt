//! A check that seals what it read.
ghost use Rattle.std.specs.Prelude.{◌≡◌, ◌≤◌, ◌^◌, ℕ, List, Option, Some, length, map, Err, IfOk, IfSome, OnOk};
ghost use Rattle.std.specs.List.{AllByRecursion};
ghost use Rattle.fv_outside.specs.Faults.{Rose};
ghost use Rattle.seals.specs.Kept.{kept_in};
ghost use Rattle.bundle_report.specs.Headline.{IsSound};
ghost use Rattle.resumed_runs.specs.Kept.{AreKeptOf, IsUnbroken};
ghost use Rattle.check_core.specs.Stream.{IsReadWhole};
ghost use Rattle.check_core.specs.Sealing.{IsPlaced, IsPlacedInPart, IsSealStatus, IsSealText, IsUnsealed, SealsInto, SealsTo};
ghost use Rattle.check_core.specs.Unsealed.{unsealed_status};

use crate::checked::{Checked, DoneBundle, write_end};
use crate::checking::check_lines;
use crate::told::Told;
use base_words::Memory;
use certified_epochs::FedRun;
use fv_outside::{Counter, Sink, Source, Vault};
use merkle_records::digests_have_32_bytes;
use operation_folds::NothingMade;
use record_hash::Digests;
use report_text::{Status, write_sealed};
use seals::{RunState, SealedState, Unplaced, place, seals_take_their_numbers, write_seal};
use std::alloc::Global;
use std::thread::Threads;

/// Names a vault, and checks a bundle of no more than so many bytes. Where its report ends with `done`, it raises the counter, writes to the
/// vault the seal of what was read, and only then the last line, which says `sealed`. All memory is taken before the counter is raised.
/// Else nothing is sealed, and the counter isn't asked.
pub fn check_seal<R: Threads + Sync, D: Digests + Sync, S: Source, O: Sink, V: Vault, C: Counter>(
    rt: &R,
    alloc: Global,
    d: &D,
    limit: u64,
    path: &str,
    source: &mut S,
    out: &mut O,
    vault: &mut V,
    counter: &mut C,
) -> Status
    requires limit { limit ≤ 2 ^ 40 }
    requires fresh { V.fresh vault.old }
    requires can_raise { C.can_raise counter.old }
    ensures outcomes { IsSealStatus result }

    // What is written, the status, what was taken of the source, and what stands in the vault and the counter.
    ensures seals { SealsTo (D.functions d.now) path.now limit result
        (record { left = S.left source.old; left_after = S.left source.new; faults = S.faults source.old; faults_after = S.faults source.new })
        (record { held = O.held out.old; held_after = O.held out.new; faults = O.faults out.old; faults_after = O.faults out.new })
        (record { held = V.held vault.old; held_after = V.held vault.new; name = V.name vault.old; name_after = V.name vault.new; faults = V.faults vault.old; faults_after = V.faults vault.new })
        (record { number = C.number counter.old; number_after = C.number counter.new; faults = C.faults counter.old; faults_after = C.faults counter.new }) }
    ensures unasked { IsUnsealed result → counter.new ≡ counter.old }

    // The answers of that report are serial, or the exhibit of the bytes collides.
    ensures headline { IfSome (S.left source.old) (IsSound (D.functions d.now)) }
{
    digests_have_32_bytes(d);
    match vault.name(path) {
        Ok(()) => check_and_seal(rt, alloc, d, limit, source, out, vault, counter),
        Err(_) => Status::VaultFault,
    }
}

// Checks a bundle, and seals what was read in a vault that is named.
fn check_and_seal<R: Threads + Sync, D: Digests + Sync, S: Source, O: Sink, V: Vault, C: Counter>(
    rt: &R,
    alloc: Global,
    d: &D,
    limit: u64,
    source: &mut S,
    out: &mut O,
    vault: &mut V,
    counter: &mut C,
) -> Status
    requires limit { limit ≤ 2 ^ 40 }
    requires can_raise { C.can_raise counter.old }
    ensures outcomes { IsSealStatus result }
    ensures seals { SealsInto (D.functions d.now) limit result
        (record { left = S.left source.old; left_after = S.left source.new; faults = S.faults source.old; faults_after = S.faults source.new })
        (record { held = O.held out.old; held_after = O.held out.new; faults = O.faults out.old; faults_after = O.faults out.new })
        (record { held = V.held vault.old; held_after = V.held vault.new; name = V.name vault.old; name_after = V.name vault.new; faults = V.faults vault.old; faults_after = V.faults vault.new })
        (record { number = C.number counter.old; number_after = C.number counter.new; faults = C.faults counter.old; faults_after = C.faults counter.new }) }
    ensures unasked { IsUnsealed result → counter.new ≡ counter.old }
    ensures name { V.name vault.new ≡ V.name vault.old }
    ensures vault_never_falls { V.faults vault.old ≤ V.faults vault.new }
{
    let told = Told::Lines { receipts: false };
    let mut nothing = NothingMade;
    match check_lines(rt, alloc, d, limit, source, &told, &mut nothing, out) {
        Ok(Checked::Done(done)) => match place_seal(alloc, d, &done, vault, counter) {
            Ok(()) => match write_sealed(done.epochs, out) {
                Ok(()) => Status::Done {
                    epochs: done.epochs,
                },
                Err(_) => Status::WriteFault,
            },
            Err(unsealed) => unsealed.status(),
        },
        Ok(Checked::Ended(end)) => match write_end(&end, out) {
            Ok(status) => status,
            Err(_) => Status::WriteFault,
        },
        Err(failure) => Status::of_failure(failure, limit),
    }
}

// Why a bundle isn't sealed.
#[derive(Clone, Copy, Debug, PartialEq, Eq)]
enum Unsealed {
    // Want of memory: the counter wasn't asked.
    Memory,
    // The seal wasn't placed.
    Unplaced(Unplaced),
}

impl Unsealed {
    // The status of a check whose bundle isn't sealed for this.
    fn status(&self) -> Status
        ensures value { result ≡ unsealed_status self.now }
    {
        match self {
            Unsealed::Memory => Status::Memory,
            Unsealed::Unplaced(Unplaced::CounterFault) => Status::CounterFault,
            Unsealed::Unplaced(Unplaced::VaultFault) => Status::VaultFault,
        }
    }
}

impl From<Memory> for Unsealed {
    ghost use Rattle.check_core.specs.declared.sealing.Unsealed.TheVariants.{Memory as OutOfMemory};

    ghost from_gives = { λ _ unsealed. unsealed ≡ OutOfMemory };

    fn from(_: Memory) -> Unsealed {
        Unsealed::Memory
    }
}

// Raises the counter and writes the seal of a bundle that was read with the counter's number. All memory is taken before.
fn place_seal<D: Digests, V: Sink, C: Counter>(
    alloc: Global,
    d: &D,
    done: &DoneBundle,
    vault: &mut V,
    counter: &mut C,
) -> Result<(), Unsealed>
    requires read { (left : Option (List ℕ)) × IsReadWhole (D.functions d.now) done.now.header left done.now.taken done.now.epochs done.now.runs.items }
    requires can_raise { C.can_raise counter.old }

    // The vault has the whole seal of the bytes that were read, or a front of it.
    ensures placed { OnOk result ((bytes : List ℕ)
        → IsReadWhole (D.functions d.now) done.now.header (Some bytes) done.now.taken done.now.epochs done.now.runs.items → length bytes ≤ 2 ^ 40
        → IsPlaced (D.functions d.now)
        (record { held = V.held vault.old; held_after = V.held vault.new; name = V.name vault.old; name_after = V.name vault.new; faults = V.faults vault.old; faults_after = V.faults vault.new })
        (record { number = C.number counter.old; number_after = C.number counter.new; faults = C.faults counter.old; faults_after = C.faults counter.new }) bytes) }
    ensures cut { result ≡ Err (Unsealed.Unplaced Unplaced.VaultFault) → (bytes : List ℕ)
        → IsReadWhole (D.functions d.now) done.now.header (Some bytes) done.now.taken done.now.epochs done.now.runs.items → length bytes ≤ 2 ^ 40
        → IsPlacedInPart (D.functions d.now)
        (record { held = V.held vault.old; held_after = V.held vault.new; name = V.name vault.old; name_after = V.name vault.new; faults = V.faults vault.old; faults_after = V.faults vault.new })
        (record { number = C.number counter.old; number_after = C.number counter.new; faults = C.faults counter.old; faults_after = C.faults counter.new }) bytes }

    // Where memory was wanting nothing was asked, and where the counter failed nothing changed.
    ensures unasked { result ≡ Err Unsealed.Memory → counter.new ≡ counter.old }
    ensures untouched { result ≡ Err Unsealed.Memory → vault.new ≡ vault.old }
    ensures unraised { result ≡ Err (Unsealed.Unplaced Unplaced.CounterFault) → C.number counter.new ≡ C.number counter.old }
    ensures unwritten { result ≡ Err (Unsealed.Unplaced Unplaced.CounterFault) → V.held vault.new ≡ V.held vault.old }
    ensures name { V.name vault.new ≡ V.name vault.old }
    ensures counter_rose { result ≡ Err (Unsealed.Unplaced Unplaced.CounterFault) → Rose (C.faults counter.old) (C.faults counter.new) }
    ensures vault_rose { result ≡ Err (Unsealed.Unplaced Unplaced.VaultFault) → Rose (V.faults vault.old) (V.faults vault.new) }
    ensures vault_never_falls { V.faults vault.old ≤ V.faults vault.new }
{
    seals_take_their_numbers();
    let mut text = seal_of(alloc, d, done)?;
    match place(d, counter, &mut text, vault) {
        Ok(number) => {
            // A seal has room for the counter's number.
            prove!(number <= u64::MAX);
            Ok(())
        }
        Err(unplaced) => Err(Unsealed::Unplaced(unplaced)),
    }
}

// The text of the seal of a bundle that was read, as long as no counter was raised for it.
fn seal_of<D: Digests>(alloc: Global, d: &D, done: &DoneBundle) -> Result<Vec<u8>, Memory>
    requires read { (left : Option (List ℕ)) × IsReadWhole (D.functions d.now) done.now.header left done.now.taken done.now.epochs done.now.runs.items }
    ensures text { IfOk result (λ text. (bytes : List ℕ)
        → IsReadWhole (D.functions d.now) done.now.header (Some bytes) done.now.taken done.now.epochs done.now.runs.items
        → IsSealText (D.functions d.now) bytes text.items) }
    ensures long { IfOk result (λ text. 44 ≤ length text.items) }
{
    let runs = states_of(alloc, &done.runs)?;
    // The clock of each verifier has sealed the epochs that are certified, so their number has 32 bits.
    let sealed = u64::from(runs[0].at.epoch);
    prove!(done.epochs <= sealed);
    let state = SealedState {
        counter: 0,
        taken: done.taken,
        header: done.header,
        certified: done.epochs as u32,
        runs,
    };
    write_seal(alloc, d, &state)
}

// What is kept of each run.
fn states_of(alloc: Global, runs: &[FedRun]) -> Result<Vec<RunState>, Memory>
    requires unbroken { AllByRecursion IsUnbroken (map (λ fed. fed.run) runs.now) }
    ensures kept { IfOk result (λ states. AreKeptOf (map (λ fed. fed.run) runs.now) (map kept_in states.items)) }
{
    let mut states = Vec::new(alloc);
    for fed in runs {
        states.push(fed.run.to_state(alloc)?)?;
    }
    Ok(states)
}
