//! What follows from the definitions of bundles. The functions do nothing: their contracts are the laws.
ghost use Rattle.std.specs.Prelude.{◌≡◌, Bool, ℕ, List, ◌++◌, Option, Err};
ghost use Rattle.fv_outside.specs.Written.{GrowsByFront};
ghost use Rattle.record_hash.specs.Functions.{DigestFunctions};
ghost use Rattle.lamport_clocks.specs.declared.header.Header.{Header};
ghost use Rattle.bundle_frames.specs.Bundle.{header_text};
ghost use Rattle.bundle_report.specs.Report.{told_by};
ghost use Rattle.bundle_report.specs.Answer.{check_answer};
ghost use Rattle.host_rounds.specs.Bundle.{IsBundle};
ghost use Rattle.host_rounds.specs.SoFar.{lines_due};
ghost use Rattle.script_text.specs.declared.task.Task.{Task};
ghost use Rattle.shipped_host.specs.Settings.{IsSettings};
ghost use Rattle.verifier_threads.specs.declared.accounts.Account.{Account};
ghost use Rattle.verifier_threads.specs.Serving.{IsCutOff, ServesTo};

use base_words::a_number_of_32_bits_is_below;
use bundle_frames::{bytes_bound_the_frames, frames_are_read_back, headers_are_read_back};
use fv_outside::Failure;
use host_log::{bundles_hold_the_logs, frames_join_to_the_bytes};
use host_rounds::rounds_make_a_bundle;
use shipped_host::Settings;

/// What the bundle of logs certifies is due whatever bytes follow it, and more may be due behind.
pub fn what_is_due_stays_due()
    ensures stays { (receipts : Bool) (functions : DigestFunctions) (header : Header) (logs : List (List ℕ)) (rounds : List (List (List ℕ))) (bytes more : List ℕ) → IsBundle header logs rounds bytes
        → (rest : List ℕ) × ((check_answer receipts functions (bytes ++ more)).due ≡ lines_due (told_by receipts functions header) functions header logs ++ rest) }
{
    bytes_bound_the_frames();
    frames_are_read_back();
    headers_are_read_back();
    frames_join_to_the_bytes();
    bundles_hold_the_logs();
}

/// A run of which the vault took a front of the header, or nothing, and the sink nothing was cut off, whatever is to be written of it:
/// the bundle of what the setup logs begins with the header.
pub fn a_header_begins_the_bundle(settings: &Settings)
    requires settings { IsSettings settings.now }
    ensures cut { (account : Account) (functions : DigestFunctions) (script : List (List Task)) (vault vault_after out : Option (List ℕ))
        → GrowsByFront vault vault_after (header_text settings.now.header)
        → IsCutOff account functions settings.now script (record { vault = vault; vault_after = vault_after; out = out; out_after = out }) }
    ensures fault { (account : Account) (functions : DigestFunctions) (script : List (List Task)) (vault vault_after out : Option (List ℕ))
        → GrowsByFront vault vault_after (header_text settings.now.header)
        → ServesTo account functions settings.now script (Err Failure.VaultFault) (record { vault = vault; vault_after = vault_after; out = out; out_after = out }) }
{
    rounds_make_a_bundle();
    a_number_of_32_bits_is_below(settings.header.first);
}
