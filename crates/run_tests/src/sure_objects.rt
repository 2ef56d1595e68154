//! The program over objects that never fail.
ghost use Rattle.std.specs.Prelude.{◌≢◌};
ghost use Rattle.fv_outside.specs.SureSinkState.{IsUnused};
ghost use Rattle.fv_outside.specs.Counting.{HasRaisesLeft};

use fastver_top::{Status, fastver};
use fv_outside::{FreeGate, SureCounter, SureSink, SureSource, SureVault};
use std::alloc::Global;
use std::sync::Wait;
use std::thread::Threads;

/// Runs the program, whatever its words: it comes to no fault.
pub(crate) fn run_surely<R: Threads + Wait + Sync>(
    rt: &R,
    alloc: Global,
    words: &[&str],
    source: &mut SureSource,
    out: &mut SureSink,
    vault: &mut SureVault,
    counter: &mut SureCounter,
) -> Status
    requires fresh { IsUnused vault.old }
    requires raises { HasRaisesLeft counter.old }
    ensures no_read_fault { result ≢ Status.ReadFault }
    ensures no_write_fault { result ≢ Status.WriteFault }
    ensures no_vault_fault { result ≢ Status.VaultFault }
    ensures no_counter_fault { result ≢ Status.CounterFault }
{
    fastver(rt, alloc, words, source, out, vault, &FreeGate, counter)
}
