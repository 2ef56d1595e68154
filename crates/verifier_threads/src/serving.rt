//! A script that is served, from the setup to the end of its report or its summary.
ghost use Rattle.std.specs.Prelude.{◌≡◌, ◌≤◌, Err};
ghost use Rattle.fv_outside.specs.Faults.{Rose};
ghost use Rattle.script_text.specs.Text.{AreTasks};
ghost use Rattle.shipped_host.specs.Settings.{IsSettings};
ghost use Rattle.verifier_threads.specs.Serving.{ServesTo};

use crate::accounts::Account;
use crate::ending::RunEnd;
use crate::runner::{NextCall, Runner};
use fv_outside::{Failure, Gate, Sink};
use record_hash::Digests;
use script_text::Requests;
use shipped_host::Settings;
use std::alloc::Global;
use std::sync::Wait;
use std::thread::Threads;

/// Serves a script to its end, or up to where a clock ends: the workers serve it phase by phase, or in a rolling host in one round of
/// all phases, the vault takes the bundle of their logs, and the sink what is to be written of it: the report of what these certify,
/// with receipts or without, or the summary of a load. The gate is passed before each request.
///
/// At `Ok` all of it is written, and the answer says how it ends: where no clock ended the script is served, each of its phases is
/// certified, and the host's contents hold the plain map that the bundle certifies. At an error the vault has a front of the bundle of
/// the script's logs, as far as it was served, and the sink a front of the lines that these bytes certify, and of a summary nothing; or,
/// where the sink failed at the end, a front of the report or summary.
pub fn serve<R: Threads + Wait + Sync, D: Digests + Sync, V: Sink, O: Sink, G: Gate + Sync>(
    rt: &R,
    alloc: Global,
    d: &D,
    settings: &Settings,
    requests: &Requests,
    account: Account,
    gate: &G,
    vault: &mut V,
    out: &mut O,
) -> Result<RunEnd, Failure>
    requires settings { IsSettings settings.now }
    requires tasks { AreTasks settings.now.header requests.now }
    ensures serves { ServesTo account (D.functions d.now) settings.now requests.now result
        (record { vault = V.held vault.old; vault_after = V.held vault.new; out = O.held out.old; out_after = O.held out.new }) }
    ensures vault_fault { result ≡ Err Failure.VaultFault → Rose (V.faults vault.old) (V.faults vault.new) }
    ensures write_fault { result ≡ Err Failure.WriteFault → Rose (O.faults out.old) (O.faults out.new) }
    ensures vault_never_falls { V.faults vault.old ≤ V.faults vault.new }
    ensures never_falls { O.faults out.old ≤ O.faults out.new }
    ensures name { V.name vault.new ≡ V.name vault.old }
{
    let mut runner = Runner::make(alloc, d, settings, requests, account, vault)?;
    'rounds: loop {
        match runner.next_call() {
            NextCall::Round => {
                runner.round(rt, gate, vault)?;
                runner.close_epoch(rt, vault, out)?;
            }
            NextCall::Close | NextCall::Finish => break,
        }
    }
    runner.finish(out)
}
