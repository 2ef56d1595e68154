//! A script, read from a source.
ghost use Rattle.std.specs.Prelude.{◌≡◌, ◌^◌, ◌<◌, ◌≤◌, length, IfOk};
ghost use Rattle.script_text.specs.Text.{AreTasks};
ghost use Rattle.fastver_top.specs.Running.{ReadsScript, script_stopped};

use crate::reading::read_all;
use base_words::a_number_of_16_bits_is_below;
use fv_outside::{Failure, Source};
use lamport_clocks::Header;
use record_text::Cause;
use report_text::Status;
use script_text::{Requests, ScriptFault, scripts_are_read_back};
use std::alloc::Global;

/// Why no script is read.
#[derive(Clone, Copy, Debug, PartialEq, Eq)]
pub enum ScriptStop {
    /// The source could not be read to its end, or memory ran out.
    Failure(Failure),
    /// This line, counted from 1, is the first outside the grammar, and this is the first test that it doesn't pass.
    BadScript { line: u64, cause: Cause },
}

impl ScriptStop {
    /// The status of a run that stops so, where so many bytes are the limit.
    pub fn status(&self, limit: u64) -> Status
        ensures value { result ≡ script_stopped limit self.now }
    {
        match *self {
            ScriptStop::Failure(failure) => Status::of_failure(failure, limit),
            ScriptStop::BadScript { line, cause } => Status::BadScript { line, cause },
        }
    }
}

impl From<Failure> for ScriptStop {
    ghost use Rattle.fastver_top.specs.declared.scripts.ScriptStop.TheVariants.{Failure as Stopped};

    ghost from_gives = { λ failure stop. stop ≡ Stopped failure };

    fn from(failure: Failure) -> ScriptStop {
        ScriptStop::Failure(failure)
    }
}

impl From<ScriptFault> for ScriptStop {
    ghost use Rattle.fastver_top.specs.Running.{unread_by};

    ghost from_gives = { λ fault stop. stop ≡ unread_by fault };

    fn from(fault: ScriptFault) -> ScriptStop {
        match fault {
            ScriptFault::Memory => ScriptStop::Failure(Failure::Memory),
            ScriptFault::BadScript { line, cause } => ScriptStop::BadScript { line, cause },
        }
    }
}

/// Reads a script for this header from a source of no more than so many bytes.
pub fn read_script<S: Source>(
    alloc: Global,
    limit: u64,
    header: &Header,
    source: &mut S,
) -> Result<Requests, ScriptStop>
    requires limit { limit ≤ 2 ^ 40 }
    ensures tasks { IfOk result (AreTasks header.now) }
    ensures some { IfOk result (λ script. 0 < length script) }
    ensures reads { ReadsScript header.now limit result
        (record { left = S.left source.old; left_after = S.left source.new; faults = S.faults source.old; faults_after = S.faults source.new }) }
{
    scripts_are_read_back();
    a_number_of_16_bits_is_below(header.verifiers);
    let bytes = read_all(alloc, limit, source)?;
    Ok(Requests::read(alloc, &bytes, header)?)
}
