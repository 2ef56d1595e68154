//! Bytes of a log in frames of a bundle.
ghost use Rattle.std.specs.Prelude.{◌≡◌, OnOk, OnErr};
ghost use Rattle.fv_outside.specs.Faults.{Counts};
ghost use Rattle.fv_outside.specs.Written.{Grows, GrowsByFront};
ghost use Rattle.host_log.specs.Frames.{frames_text};

use bundle_frames::write_frame;
use fv_outside::{Failed, Sink};

// The most bytes of a frame's body.
const LONGEST_BODY: usize = 65_536;

/// Writes bytes of a verifier's log in frames of 65,536 bytes and a last one of what is left. No bytes are no frame.
/// On `Failed` the sink holds a front of these frames more.
pub fn frames<O: Sink>(verifier: u16, bytes: &[u8], sink: &mut O) -> Result<(), Failed>
    ensures whole { OnOk result
        (Grows (O.held sink.old) (O.held sink.new) (frames_text verifier bytes.now)) }
    ensures front { OnErr result
        (GrowsByFront (O.held sink.old) (O.held sink.new) (frames_text verifier bytes.now)) }
    ensures name { O.name sink.new ≡ O.name sink.old }
    ensures counts { Counts (O.faults sink.old) (O.faults sink.new) result }
{
    for body in bytes.chunks(LONGEST_BODY) {
        write_frame(verifier, body, sink)?;
    }
    Ok(())
}
