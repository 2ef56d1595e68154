//! The logs of a round in frames of a bundle.
ghost use Rattle.std.specs.Prelude.{◌≡◌, ◌≤◌, ◌^◌, length, OnOk, OnErr};
ghost use Rattle.fv_outside.specs.Faults.{Counts};
ghost use Rattle.fv_outside.specs.Written.{Grows, GrowsByFront};
ghost use Rattle.host_rounds.specs.Round.{round_text};

use fv_outside::{Failed, Sink};
use host_log::{LogBuffer, frames};

/// Writes the logs of verifiers in frames, those of verifier 0 first. On `Failed` the sink holds a front of them more.
pub(crate) fn write_round<O: Sink>(logs: &[LogBuffer], sink: &mut O) -> Result<(), Failed>
    requires numbers { length logs.now ≤ 64 }
    ensures whole { OnOk result (Grows (O.held sink.old) (O.held sink.new) (round_text logs.now)) }
    ensures front { OnErr result (GrowsByFront (O.held sink.old) (O.held sink.new) (round_text logs.now)) }
    ensures name { O.name sink.new ≡ O.name sink.old }
    ensures counts { Counts (O.faults sink.old) (O.faults sink.new) result }
{
    for (number, log) in logs.iter().enumerate() {
        frames(number as u16, log.bytes(), sink)?;
    }
    Ok(())
}
