//! A script that is served: what is read, how it is served, and with which status that ends.
ghost use Rattle.std.specs.Prelude.{◌≡◌, ◌≢◌, ◌⊎◌, ◌^◌, ◌≤◌, OnOk, OnErr, Err};
ghost use Rattle.fv_outside.specs.Faults.{Counts, Rose};
ghost use Rattle.shipped_host.specs.Settings.{IsSettings};
ghost use Rattle.program_words.specs.HostWords.{AreHostNumbers};
ghost use Rattle.script_text.specs.Text.{AreTasks};
ghost use Rattle.verifier_threads.specs.Serving.{ServesTo};
ghost use Rattle.fastver_top.specs.Running.{IsBeforeRun, IsNamedFor, IsRunStatus, IsUntouched, RunsTo, header_for, settings_for};

use crate::scripts::read_script;
use fv_outside::{Failed, Failure, Gate, Sink, Source, Vault};
use host_fits::scripts_ask_for_keys_in_range;
use lamport_clocks::Header;
use merkle_records::digests_have_32_bytes;
use program_words::{HostNumbers, PathWord, RunWords};
use record_hash::Digests;
use report_text::Status;
use run_reports::a_check_of_the_logs_ends_as_the_host_promises;
use script_text::Requests;
use shipped_host::Settings;
use std::alloc::Global;
use std::sync::Wait;
use std::thread::Threads;
use verifier_threads::{Account, RunEnd, a_header_begins_the_bundle, serve};

// How many entries a verifier of the host may cache, where keys have 64 bits, and where they have 128.
const SHORT_CACHE: u32 = 128;

const LONG_CACHE: u32 = 256;

/// Reads a script of no more than so many bytes to its end, names the vault if the words say so, and serves the script: the
/// vault takes the bundle of the logs, and the sink its report, with receipts if the words say so.
pub fn run_script<
    R: Threads + Wait + Sync,
    D: Digests + Sync,
    S: Source,
    O: Sink,
    V: Vault,
    G: Gate + Sync,
>(
    rt: &R,
    alloc: Global,
    d: &D,
    run: &RunWords,
    limit: u64,
    source: &mut S,
    out: &mut O,
    vault: &mut V,
    gate: &G,
) -> Status
    requires limit { limit ≤ 2 ^ 40 }
    requires numbers { AreHostNumbers run.now.numbers }
    requires fresh { V.fresh vault.old }
    ensures outcomes { IsRunStatus result }

    // What was read, how it was served, what stands in vault and sink, and the faults.
    ensures runs { RunsTo (D.functions d.now) run.now limit result
        (record { left = S.left source.old; left_after = S.left source.new; faults = S.faults source.old; faults_after = S.faults source.new })
        (record { held = O.held out.old; held_after = O.held out.new; faults = O.faults out.old; faults_after = O.faults out.new })
        (record { held = V.held vault.old; held_after = V.held vault.new; name = V.name vault.old; name_after = V.name vault.new; faults = V.faults vault.old; faults_after = V.faults vault.new }) }

    // Where no whole and good script is read, nothing is written, and the vault is not named.
    ensures unwritten { IsBeforeRun result → out.new ≡ out.old }
    ensures vault { IsBeforeRun result → vault.new ≡ vault.old }
{
    digests_have_32_bytes(d);
    scripts_ask_for_keys_in_range();
    a_check_of_the_logs_ends_as_the_host_promises();
    let header = header_for(&run.numbers);
    let requests = match read_script(alloc, limit, &header, source) {
        Ok(requests) => requests,
        Err(stop) => return stop.status(limit),
    };
    match serve_named(rt, alloc, d, run, &requests, gate, vault, out) {
        Ok(end) => end.status(),
        Err(failure) => Status::of_failure(failure, limit),
    }
}

// Names the vault if the words say so, and serves a script.
fn serve_named<R: Threads + Wait + Sync, D: Digests + Sync, V: Vault, O: Sink, G: Gate + Sync>(
    rt: &R,
    alloc: Global,
    d: &D,
    run: &RunWords,
    requests: &Requests,
    gate: &G,
    vault: &mut V,
    out: &mut O,
) -> Result<RunEnd, Failure>
    requires numbers { AreHostNumbers run.now.numbers }
    requires tasks { AreTasks (header_for run.now.numbers) requests.now }
    requires fresh { V.fresh vault.old }
    ensures serves { ServesTo (Account.Report run.now.receipts) (D.functions d.now) (settings_for run.now.numbers) requests.now result
        (record { vault = V.held vault.old; vault_after = V.held vault.new; out = O.held out.old; out_after = O.held out.new }) }
    ensures named { result ≢ Err Failure.VaultFault → IsNamedFor run.now.logs (V.name vault.old) (V.name vault.new) }
    ensures named_first { IsNamedFor run.now.logs (V.name vault.old) (V.name vault.new) ⊎ IsUntouched (V.name vault.old) (V.name vault.new)
        (record { vault = V.held vault.old; vault_after = V.held vault.new; out = O.held out.old; out_after = O.held out.new }) }
    ensures vault_fault { result ≡ Err Failure.VaultFault → Rose (V.faults vault.old) (V.faults vault.new) }
    ensures write_fault { result ≡ Err Failure.WriteFault → Rose (O.faults out.old) (O.faults out.new) }
{
    let settings = settings_for(&run.numbers);
    a_header_begins_the_bundle(&settings);
    match name_vault(&run.logs, vault) {
        Ok(()) => {
            let account = Account::Report {
                receipts: run.receipts,
            };
            serve(rt, alloc, d, &settings, requests, account, gate, vault, out)
        }
        Err(_) => Err(Failure::VaultFault),
    }
}

/// Names the vault, if words say how.
pub(crate) fn name_vault<V: Vault>(logs: &Option<PathWord>, vault: &mut V) -> Result<(), Failed>
    requires fresh { V.fresh vault.old }
    ensures named { OnOk result (IsNamedFor logs.now (V.name vault.old) (V.name vault.new)) }
    ensures unnamed { OnErr result (V.name vault.new ≡ V.name vault.old) }
    ensures bytes { V.held vault.new ≡ V.held vault.old }
    ensures counts { Counts (V.faults vault.old) (V.faults vault.new) result }
{
    match logs {
        Some(path) => vault.name(path.as_str()),
        None => Ok(()),
    }
}

/// What a host of these numbers is set to.
pub(crate) fn settings_for(numbers: &HostNumbers) -> Settings
    ensures value { result ≡ settings_for numbers.now }
    ensures in_range { AreHostNumbers numbers.now → IsSettings result }
{
    Settings {
        header: header_for(numbers),
        shards: numbers.shards,
        hot: numbers.hot,
        absent: numbers.absent,
        rolling: numbers.rolling,
    }
}

// The header of the bundle that a host of these numbers writes.
fn header_for(numbers: &HostNumbers) -> Header
    ensures value { result ≡ header_for numbers.now }
{
    let cache = if numbers.bits == 128 {
        LONG_CACHE
    } else {
        SHORT_CACHE
    };
    Header {
        version: numbers.version,
        verifiers: numbers.verifiers,
        cache,
        first: numbers.first,
        end: numbers.counter,
        bits: numbers.bits,
    }
}
