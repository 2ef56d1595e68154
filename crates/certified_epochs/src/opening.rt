//! The runs of all verifiers, before the first byte of their logs.
ghost use Rattle.std.specs.Prelude.{◌≡◌, IfOk, map, vec_len};
ghost use Rattle.lamport_clocks.specs.Header.{IsHeader};
ghost use Rattle.bundle_report.specs.SoFar.{opening_runs};
ghost use Rattle.certified_epochs.specs.Turn.{AreFed};

use crate::fed_run::FedRun;
use base_words::Memory;
use lamport_clocks::Header;
use std::alloc::Global;

/// A run for each verifier of a bundle, which has taken nothing yet.
pub fn open_runs(alloc: Global, header: &Header) -> Result<Vec<FedRun>, Memory>
    requires header { IsHeader header.now }
    ensures opening { IfOk result (λ runs. map (λ fed. fed.run) runs.items ≡ opening_runs header.now 0 header.now.verifiers) }
    ensures fed { IfOk result (λ runs. AreFed runs.items) }
    ensures len { IfOk result (λ runs. vec_len runs ≡ header.now.verifiers) }
{
    let mut runs = Vec::new(alloc);
    for number in 0..header.verifiers {
        runs.push(FedRun::new(alloc, number, header)?)?;
    }
    Ok(runs)
}
