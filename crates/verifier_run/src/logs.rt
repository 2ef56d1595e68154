//! Whole logs, each run from its opening to its end.
ghost use Rattle.std.specs.Prelude.{◌≡◌, ◌<◌, [], length, map, IfOk};
ghost use Rattle.lamport_clocks.specs.Header.{IsHeader};
ghost use Rattle.merkle_records.specs.Scheme.{scheme_of};
ghost use Rattle.verifier_commands.specs.Machine.{opening_machine};
ghost use Rattle.verifier_run.specs.LogCourse.{log_course, courses_keeping};

use crate::kept::Kept;
use crate::run::Run;
use base_words::Memory;
use lamport_clocks::Header;
use record_hash::Digests;
use std::alloc::Global;

/// The run of the verifier of this number over a whole log.
pub fn run_log<T: Kept, D: Digests>(
    alloc: Global,
    d: &D,
    number: u16,
    header: &Header,
    log: &[u8],
) -> Result<Run<T>, Memory>
    requires header { IsHeader header.now }
    requires number { number < header.now.verifiers }
    ensures course { IfOk result (λ run. run.course
        ≡ log_course T.keeps (scheme_of (D.functions d.now) header.now) (opening_machine number header.now) log.now) }
    ensures none_held { IfOk result (λ run. run.held ≡ []) }
{
    let mut run = Run::new(alloc, number, header)?;
    match run.feed(d, log) {
        Ok(()) => {}
        Err(_) => return Err(Memory),
    }
    run.end();
    Ok(run)
}

/// The runs of all logs, that of verifier 0 first, one after another.
pub fn run_logs<T: Kept, D: Digests>(
    alloc: Global,
    d: &D,
    header: &Header,
    logs: &[Vec<u8>],
) -> Result<Vec<Run<T>>, Memory>
    requires header { IsHeader header.now }
    requires count { length logs.now ≡ header.now.verifiers }
    ensures courses { IfOk result (λ runs. map (λ run. run.course) runs.items
        ≡ courses_keeping T.keeps (scheme_of (D.functions d.now) header.now) header.now 0 (map (λ log. log.items) logs.now)) }
{
    let mut runs = Vec::new(alloc);
    for (number, log) in logs.iter().enumerate() {
        runs.push(run_log(alloc, d, number as u16, header, log)?)?;
    }
    Ok(runs)
}
