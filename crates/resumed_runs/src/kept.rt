//! What follows for what is kept of runs. These functions do nothing: their contracts are the laws.
ghost use Rattle.std.specs.Prelude.{◌≡◌, ℕ, ◌+◌, List, Some, None, false};
ghost use Rattle.std.specs.List.{AllByRecursion};
ghost use Rattle.lamport_clocks.specs.declared.header.Header.{Header};
ghost use Rattle.lamport_clocks.specs.Header.{IsHeader};
ghost use Rattle.record_hash.specs.Functions.{DigestFunctions};
ghost use Rattle.merkle_records.specs.Scheme.{scheme_of};
ghost use Rattle.bundle_frames.specs.Bundle.{bundle_of};
ghost use Rattle.report_text.specs.declared.status.Status.TheVariants.{Done};
ghost use Rattle.seals.specs.State.{KeptRun, Seal};
ghost use Rattle.seals.specs.Run.{IsGoodRun};
ghost use Rattle.seals.specs.Seal.{IsGoodSeal};
ghost use Rattle.verifier_run.specs.Sealed.{CanGoOn, run_from};
ghost use Rattle.bundle_report.specs.Logged.{logged_of};
ghost use Rattle.bundle_report.specs.RunReport.{courses_of};
ghost use Rattle.bundle_report.specs.Judged.{judged};
ghost use Rattle.bundle_report.specs.SoFar.{HaveRead, runs_from};
ghost use Rattle.bundle_report.specs.Answer.{check_answer};
ghost use Rattle.resumed_runs.specs.Base.{CanBeCertified, AllCanBeCertified};
ghost use Rattle.resumed_runs.specs.Kept.{IsUnbroken, IsSealOf, runs_from_kept};

use seals::bounds_say_more;
use verifier_run::runs_go_on_from_what_was_kept;

/// From what is kept of a verifier within its bounds, whoever wrote it, a run can go on, and it can be certified from the first epoch on that is not
/// certified.
pub fn what_is_kept_can_go_on()
    ensures go_on { (header : Header) (certified taken number : ℕ) (kept : KeptRun)
        → IsHeader header → IsGoodRun header certified taken number kept
        → CanGoOn header kept }
    ensures certified { (header : Header) (certified taken number : ℕ) (kept : KeptRun)
        → IsHeader header → IsGoodRun header certified taken number kept
        → CanBeCertified (header.first + certified) number (run_from number header kept) }
{
    bounds_say_more();
}

/// So it is with what a seal keeps of all verifiers.
pub fn seals_can_be_certified()
    ensures certified { (seal : Seal) → IsGoodSeal seal
        → AllCanBeCertified (seal.header.first + seal.certified) 0 (runs_from_kept seal.header 0 seal.runs) }
{
    what_is_kept_can_go_on();
}

/// Where a bundle's report ends with nothing bad, nothing refused and nothing unbalanced, that is what its logs come to: they certify as many epochs as
/// it says, and their runs are unbroken. The runs that go on from its seal have read its logs, with these epochs counted.
pub fn seals_keep_what_was_read()
    ensures whole { (functions : DigestFunctions) (bytes : List ℕ) (header : Header) (count : ℕ)
        → (logged_of bytes).header ≡ Some header
        → (check_answer false functions bytes).status ≡ Done count
        → (bundle_of bytes).bad ≡ None }
    ensures judged { (functions : DigestFunctions) (bytes : List ℕ) (header : Header) (count : ℕ)
        → (logged_of bytes).header ≡ Some header
        → (check_answer false functions bytes).status ≡ Done count
        → judged header.verifiers (courses_of (scheme_of functions header) header (logged_of bytes).logs) ≡ record { count = count; unbalanced = None } }
    ensures unbroken { (functions : DigestFunctions) (bytes : List ℕ) (header : Header) (count : ℕ)
        → (logged_of bytes).header ≡ Some header
        → (check_answer false functions bytes).status ≡ Done count
        → AllByRecursion IsUnbroken (runs_from (scheme_of functions header) header count 0 (logged_of bytes).logs) }
    ensures read { (functions : DigestFunctions) (bytes : List ℕ) (seal : Seal) → IsSealOf functions bytes seal
        → HaveRead (scheme_of functions seal.header) seal.header (logged_of bytes).logs (record { count = seal.certified; unbalanced = None })
        (runs_from_kept seal.header 0 seal.runs) }
{
    runs_go_on_from_what_was_kept();
}
