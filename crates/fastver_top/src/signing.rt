//! The requests of a client, handed in line by line: what is read, and the lines that they are once they are signed.
ghost use Rattle.std.specs.Prelude.{◌≡◌, ◌^◌, ◌≤◌};
ghost use Rattle.fastver_top.specs.Accepting.{AnswersWhole, IsBeforeAnswer};
ghost use Rattle.fastver_top.specs.Signing.{sign_answer, IsSignStatus};

use crate::reading::read_all;
use fv_outside::{Sink, Source, write_all};
use record_hash::Digests;
use report_text::Status;
use script_text::{ScriptFault, sign_lines};
use std::alloc::Global;

// How many bits a key has where it doesn't have 64.
const LONG_KEYS: u8 = 128;

/// Reads the requests of this client, whose keys have so many bits, in lines of no more than so many bytes, and writes them as the
/// client signs them, each in its line. Where a line is bad nothing is written.
pub fn sign_text<D: Digests, S: Source, O: Sink>(
    alloc: Global,
    d: &D,
    client: u32,
    bits: u8,
    limit: u64,
    source: &mut S,
    out: &mut O,
) -> Status
    requires limit { limit ≤ 2 ^ 40 }
    ensures outcomes { IsSignStatus result }

    // What is written, the status, what was taken of the source, and the faults.
    ensures answers { AnswersWhole (sign_answer (D.functions d.now) client bits) limit result
        (record { left = S.left source.old; left_after = S.left source.new; faults = S.faults source.old; faults_after = S.faults source.new })
        (record { held = O.held out.old; held_after = O.held out.new; faults = O.faults out.old; faults_after = O.faults out.new }) }

    // Where not all lines are signed the sink is as before.
    ensures unwritten { IsBeforeAnswer result → out.new ≡ out.old }
{
    let bytes = match read_all(alloc, limit, source) {
        Ok(bytes) => bytes,
        Err(failure) => return Status::of_failure(failure, limit),
    };
    let text = match sign_lines(alloc, d, bits == LONG_KEYS, client, &bytes) {
        Ok(text) => text,
        Err(ScriptFault::BadScript { line, cause }) => return Status::BadScript { line, cause },
        Err(ScriptFault::Memory) => return Status::Memory,
    };
    match write_all(out, &text) {
        Ok(()) => Status::Done { epochs: 0 },
        Err(_) => Status::WriteFault,
    }
}
