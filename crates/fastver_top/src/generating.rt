//! A load that is made of a seed and served, and with which status that ends.
ghost use Rattle.std.specs.Prelude.{◌≡◌, ◌≢◌, ◌⊎◌, Err};
ghost use Rattle.fv_outside.specs.Faults.{Rose};
ghost use Rattle.program_words.specs.HostWords.{AreHostNumbers};
ghost use Rattle.program_words.specs.LoadWords.{AreLoadNumbers};
ghost use Rattle.script_text.specs.Text.{AreTasks};
ghost use Rattle.verifier_threads.specs.Serving.{ServesTo};
ghost use Rattle.fastver_top.specs.Running.{IsNamedFor, IsUntouched, header_for, settings_for};
ghost use Rattle.fastver_top.specs.Generating.{GensTo, IsGenStatus, account_for, load_for, shape_for};

use crate::running::{name_vault, settings_for};
use fv_outside::{Failure, Gate, Sink, Vault};
use program_words::{GenWords, LoadNumbers};
use record_hash::Digests;
use report_text::Status;
use script_text::{Requests, Shape, generate};
use std::alloc::Global;
use std::sync::Wait;
use std::thread::Threads;
use verifier_threads::{Account, Load, RunEnd, a_header_begins_the_bundle, serve};

/// Makes the load that the words ask for, names the vault if they say so, and serves it: the vault takes the bundle of the
/// logs, and the sink the summary of the load. Nothing is read.
///
/// The load is made whole before its first request is served. It has a million requests at most, and takes 32 bytes of memory
/// for each, and those of its data value.
pub fn serve_generated<
    R: Threads + Wait + Sync,
    D: Digests + Sync,
    O: Sink,
    V: Vault,
    G: Gate + Sync,
>(rt: &R, alloc: Global, d: &D, words: &GenWords, out: &mut O, vault: &mut V, gate: &G) -> Status
    requires load { AreLoadNumbers words.now.load }
    requires numbers { AreHostNumbers words.now.numbers }
    requires fresh { V.fresh vault.old }
    ensures outcomes { IsGenStatus result }

    // How the load was served, what stands in vault and sink, and the faults.
    ensures generates { GensTo (D.functions d.now) words.now result
        (record { held = O.held out.old; held_after = O.held out.new; faults = O.faults out.old; faults_after = O.faults out.new })
        (record { held = V.held vault.old; held_after = V.held vault.new; name = V.name vault.old; name_after = V.name vault.new; faults = V.faults vault.old; faults_after = V.faults vault.new }) }
{
    let shape = shape_for(words);
    let requests = match generate(alloc, words.load.seed, &shape) {
        Ok(requests) => requests,
        Err(_) => return Status::Memory,
    };
    match serve_named(rt, alloc, d, words, &requests, gate, vault, out) {
        Ok(end) => end.status(),
        // Nothing is read, so there is no limit.
        Err(failure) => Status::of_failure(failure, 0),
    }
}

// Names the vault if the words say so, and serves a load.
fn serve_named<R: Threads + Wait + Sync, D: Digests + Sync, V: Vault, O: Sink, G: Gate + Sync>(
    rt: &R,
    alloc: Global,
    d: &D,
    words: &GenWords,
    requests: &Requests,
    gate: &G,
    vault: &mut V,
    out: &mut O,
) -> Result<RunEnd, Failure>
    requires numbers { AreHostNumbers words.now.numbers }
    requires tasks { AreTasks (header_for words.now.numbers) requests.now }
    requires fresh { V.fresh vault.old }
    ensures serves { ServesTo (account_for words.now.load) (D.functions d.now) (settings_for words.now.numbers) requests.now result
        (record { vault = V.held vault.old; vault_after = V.held vault.new; out = O.held out.old; out_after = O.held out.new }) }
    ensures named { result ≢ Err Failure.VaultFault → IsNamedFor words.now.logs (V.name vault.old) (V.name vault.new) }
    ensures named_first { IsNamedFor words.now.logs (V.name vault.old) (V.name vault.new) ⊎ IsUntouched (V.name vault.old) (V.name vault.new)
        (record { vault = V.held vault.old; vault_after = V.held vault.new; out = O.held out.old; out_after = O.held out.new }) }
    ensures vault_fault { result ≡ Err Failure.VaultFault → Rose (V.faults vault.old) (V.faults vault.new) }
    ensures write_fault { result ≡ Err Failure.WriteFault → Rose (O.faults out.old) (O.faults out.new) }
{
    let settings = settings_for(&words.numbers);
    a_header_begins_the_bundle(&settings);
    match name_vault(&words.logs, vault) {
        Ok(()) => {
            let account = Account::Summary(load_for(&words.load));
            serve(rt, alloc, d, &settings, requests, account, gate, vault, out)
        }
        Err(_) => Err(Failure::VaultFault),
    }
}

// The shape of the load that words ask for.
fn shape_for(words: &GenWords) -> Shape
    ensures value { result ≡ shape_for words.now }
{
    Shape {
        ops: words.load.ops,
        verifiers: words.numbers.verifiers,
        keys: words.load.keys,
        every: words.load.every,
    }
}

// The load of these numbers, as its summary names it.
fn load_for(numbers: &LoadNumbers) -> Load
    ensures value { result ≡ load_for numbers.now }
{
    Load {
        seed: numbers.seed,
        ops: numbers.ops,
    }
}
