//! What can keep the program from its answer, which words are refused, that a check which goes on from a seal is as one that was never
//! cut, and that with one worker a run whose epochs roll reports what one of the same script reports whose epochs don't. These functions do
//! nothing: their contracts are the laws.
ghost use Rattle.std.specs.Prelude.{◌≡◌, ◌⊎◌, ℕ, false, List, ◌++◌, length, Ok, None, Some, Option};
ghost use Rattle.record_hash.specs.ShaDigests.{sha_under};
ghost use Rattle.program_words.specs.Words.{asked_of};
ghost use Rattle.program_words.specs.declared.words.Asked.{Asked};
ghost use Rattle.program_words.specs.declared.words.CheckWords.{CheckWords};
ghost use Rattle.program_words.specs.declared.words.SealWords.{SealWords};
ghost use Rattle.program_words.specs.declared.host_words.RunWords.{RunWords};
ghost use Rattle.program_words.specs.declared.load_words.GenWords.{GenWords};
ghost use Rattle.program_words.specs.declared.sign_words.SignWords.{SignWords};
ghost use Rattle.script_text.specs.declared.task.Task.{Task};
ghost use Rattle.script_text.specs.Script.{script_of};
ghost use Rattle.report_text.specs.declared.status.Status.{Status};
ghost use Rattle.report_text.specs.Answer.{IsEnd, Reading, Writing};
ghost use Rattle.bundle_report.specs.Answer.{sha_check_answer};
ghost use Rattle.bundle_upgrade.specs.Answer.{sha_upgrade_answer};
ghost use Rattle.follower.specs.Answer.{sha_follow_answer};
ghost use Rattle.fastver_top.specs.Auditing.{sha_audit_answer};
ghost use Rattle.seals.specs.State.{Seal};
ghost use Rattle.check_core.specs.Sealing.{Keeping, Counting};
ghost use Rattle.check_core.specs.Resuming.{IsSealThen, RefusesAs};
ghost use Rattle.fastver_top.specs.Running.{header_for, settings_for};
ghost use Rattle.fastver_top.specs.Generating.{script_for};
ghost use Rattle.fastver_top.specs.Accepting.{sha_accept_answer};
ghost use Rattle.fastver_top.specs.Signing.{sha_sign_answer};
ghost use Rattle.fastver_top.specs.Answers.{AnswersFor};
ghost use Rattle.fastver_top.specs.Rules.{CanEndWith, IsStatusOf, rules_for};
ghost use Rattle.fastver_top.specs.Resuming.{HasPlaced, GoesOnFrom, TellTogether};
ghost use Rattle.fastver_top.specs.Rolling.{DifferInRolling, ReportTheSame};
ghost use Rattle.fastver_top.specs.Complete.{Had, IsOrWantsMemory, NoClockEnds, NoneFailed};

use host_fits::scripts_ask_for_keys_in_range;
use one_worker::one_worker_logs_the_same;
use script_text::scripts_are_read_back;

/// Where words are accepted, no object failed and the input is within the limit, nothing but want of memory keeps the program
/// from its answer: by the clauses `asked` and `answers` of `fastver`. A check, also one that is sealed, an audit, an acceptance, a follower,
/// an upgrade and a signing end as the bytes say; a run of a script in its grammar, and a load, are done in as many epochs as there are phases, if no
/// clock ends. A check that goes on from the seal of a bundle, whose number the counter has, ends as one of all of that bundle; and from
/// what is refused none goes on.
pub fn only_memory_may_be_wanting()
    ensures check { (check : CheckWords) (most : ℕ) (result : Status) (reading : Reading) (writing : Writing) (keeping : Keeping) (counting : Counting) (bytes : List ℕ)
        → IsStatusOf (Asked.Check check) result → AnswersFor (Asked.Check check) most result reading writing keeping counting
        → NoneFailed reading writing keeping counting → Had most bytes reading
        → IsOrWantsMemory result (sha_check_answer check.receipts check.key bytes).status }
    ensures seal { (seal : SealWords) (most : ℕ) (result : Status) (reading : Reading) (writing : Writing) (keeping : Keeping) (counting : Counting) (bytes : List ℕ)
        → IsStatusOf (Asked.Seal seal) result → AnswersFor (Asked.Seal seal) most result reading writing keeping counting
        → NoneFailed reading writing keeping counting → Had most bytes reading
        → IsOrWantsMemory result (sha_check_answer false seal.key bytes).status }
    ensures resume { (key sealed more : List ℕ) (seal : Seal) (most : ℕ) (result : Status) (reading : Reading) (writing : Writing) (keeping : Keeping) (counting : Counting) (bytes : List ℕ)
        → IsStatusOf (Asked.Resume key) result → AnswersFor (Asked.Resume key) most result reading writing keeping counting
        → NoneFailed reading writing keeping counting → Had most bytes reading
        → IsSealThen (sha_under key) sealed seal more bytes → counting.number ≡ Some seal.counter
        → IsOrWantsMemory result (sha_check_answer false key (sealed ++ more)).status }
    ensures refusal { (key : List ℕ) (most number : ℕ) (result due : Status) (reading : Reading) (writing : Writing) (keeping : Keeping) (counting : Counting) (bytes : List ℕ)
        → IsStatusOf (Asked.Resume key) result → AnswersFor (Asked.Resume key) most result reading writing keeping counting
        → NoneFailed reading writing keeping counting → Had most bytes reading
        → counting.number ≡ Some number → RefusesAs (sha_under key) counting.number bytes due
        → IsOrWantsMemory result due }
    ensures audit { (key : List ℕ) (most : ℕ) (result : Status) (reading : Reading) (writing : Writing) (keeping : Keeping) (counting : Counting) (bytes : List ℕ)
        → IsStatusOf (Asked.Audit key) result → AnswersFor (Asked.Audit key) most result reading writing keeping counting
        → NoneFailed reading writing keeping counting → Had most bytes reading
        → IsOrWantsMemory result (sha_audit_answer key bytes).status }
    ensures run { (run : RunWords) (most : ℕ) (result : Status) (reading : Reading) (writing : Writing) (keeping : Keeping) (counting : Counting) (bytes : List ℕ)
        (script : List (List Task))
        → IsStatusOf (Asked.Run run) result → AnswersFor (Asked.Run run) most result reading writing keeping counting
        → NoneFailed reading writing keeping counting → Had most bytes reading
        → script_of (header_for run.numbers) bytes ≡ Ok script → NoClockEnds (sha_under run.key) (settings_for run.numbers) script
        → IsOrWantsMemory result (Status.Done (length script)) }
    ensures load { (load : GenWords) (most : ℕ) (result : Status) (reading : Reading) (writing : Writing) (keeping : Keeping) (counting : Counting)
        → IsStatusOf (Asked.Gen load) result → AnswersFor (Asked.Gen load) most result reading writing keeping counting
        → NoneFailed reading writing keeping counting → NoClockEnds (sha_under load.key) (settings_for load.numbers) (script_for load)
        → IsOrWantsMemory result (Status.Done (length (script_for load))) }
    ensures accept { (key : List ℕ) (most : ℕ) (result : Status) (reading : Reading) (writing : Writing) (keeping : Keeping) (counting : Counting) (bytes : List ℕ)
        → IsStatusOf (Asked.Accept key) result → AnswersFor (Asked.Accept key) most result reading writing keeping counting
        → NoneFailed reading writing keeping counting → Had most bytes reading
        → IsOrWantsMemory result (sha_accept_answer key bytes).status }
    ensures follow { (key : List ℕ) (most : ℕ) (result : Status) (reading : Reading) (writing : Writing) (keeping : Keeping) (counting : Counting) (bytes : List ℕ)
        → IsStatusOf (Asked.Follow key) result → AnswersFor (Asked.Follow key) most result reading writing keeping counting
        → NoneFailed reading writing keeping counting → Had most bytes reading
        → IsOrWantsMemory result (sha_follow_answer key bytes).status }
    ensures upgrade { (key : List ℕ) (most : ℕ) (result : Status) (reading : Reading) (writing : Writing) (keeping : Keeping) (counting : Counting) (bytes : List ℕ)
        → IsStatusOf (Asked.Upgrade key) result → AnswersFor (Asked.Upgrade key) most result reading writing keeping counting
        → NoneFailed reading writing keeping counting → Had most bytes reading
        → IsOrWantsMemory result (sha_upgrade_answer key bytes).status }
    ensures sign { (sign : SignWords) (most : ℕ) (result : Status) (reading : Reading) (writing : Writing) (keeping : Keeping) (counting : Counting) (bytes : List ℕ)
        → IsStatusOf (Asked.Sign sign) result → AnswersFor (Asked.Sign sign) most result reading writing keeping counting
        → NoneFailed reading writing keeping counting → Had most bytes reading
        → IsOrWantsMemory result (sha_sign_answer sign bytes).status }
{}

/// What the table of rules says of words that ask for nothing, by the clause `asked` of `fastver`: they alone are refused, and for
/// want of memory nothing else comes.
#[tactic(auto, using(crate::proofs::RulesLemmas::refusals))]
pub fn only_words_that_ask_for_nothing_are_refused()
    ensures usage { (asked : Option Asked) (result : Status) → CanEndWith (rules_for asked) result → result ≡ Status.Usage → asked ≡ None }
    ensures refused { (result : Status) → CanEndWith (rules_for None) result → result ≡ Status.Usage ⊎ result ≡ Status.Memory }
{}

/// A check that sealed its bundle, and the next one, which goes on from the seal with more bytes while nothing raised the counter, report
/// together the whole bundle, of the bytes that were sealed and these behind them: by the clause `answers` of `fastver`. The lines of the
/// first without its last, and behind them what the second writes, are the report of a check of all of it, and the status is that of
/// such a check.
pub fn a_sealed_check_goes_on()
    ensures together { (seal : SealWords) (sealed text more : List ℕ) (number epochs most next_most : ℕ) (result : Status)
        (reading : Reading) (writing : Writing) (keeping : Keeping) (counting : Counting)
        (next_reading : Reading) (next_writing : Writing) (next_keeping : Keeping) (next_counting : Counting)
        → AnswersFor (Asked.Seal seal) most (Status.Done epochs) reading writing keeping counting
        → HasPlaced sealed text number reading keeping counting
        → AnswersFor (Asked.Resume seal.key) next_most result next_reading next_writing next_keeping next_counting
        → GoesOnFrom text more number next_reading next_counting → IsEnd result
        → TellTogether (sha_check_answer false seal.key (sealed ++ more)) epochs result writing next_writing }
    ensures only_memory { (seal : SealWords) (sealed text more : List ℕ) (number epochs most next_most : ℕ) (result : Status)
        (reading : Reading) (writing : Writing) (keeping : Keeping) (counting : Counting)
        (next_reading : Reading) (next_writing : Writing) (next_keeping : Keeping) (next_counting : Counting)
        → AnswersFor (Asked.Seal seal) most (Status.Done epochs) reading writing keeping counting
        → HasPlaced sealed text number reading keeping counting
        → IsStatusOf (Asked.Resume seal.key) result
        → AnswersFor (Asked.Resume seal.key) next_most result next_reading next_writing next_keeping next_counting
        → GoesOnFrom text more number next_reading next_counting
        → NoneFailed next_reading next_writing next_keeping next_counting → Had next_most (text ++ more) next_reading
        → IsOrWantsMemory result (sha_check_answer false seal.key (sealed ++ more)).status }
{}

/// Two calls that serve the same bytes as a script with one worker, by the same words but for `--rolling`, wrote the same report, where
/// both end with `done`: by the clause `answers` of `fastver`. With receipts it has the same receipts. The names of the vaults may
/// differ, and so do the bundles: each has the same logs, in rounds of its own.
pub fn a_rolling_run_of_one_worker_reports_the_same()
    ensures same { (words others : List (List ℕ)) (run rolled : RunWords) (most next_most epochs rolled_epochs : ℕ) (bytes : List ℕ)
        (reading : Reading) (writing : Writing) (keeping : Keeping) (counting : Counting)
        (next_reading : Reading) (next_writing : Writing) (next_keeping : Keeping) (next_counting : Counting)
        → asked_of words ≡ Some (Asked.Run run) → asked_of others ≡ Some (Asked.Run rolled) → DifferInRolling run rolled
        → reading.left ≡ Some bytes → next_reading.left ≡ Some bytes
        → AnswersFor (Asked.Run run) most (Status.Done epochs) reading writing keeping counting
        → AnswersFor (Asked.Run rolled) next_most (Status.Done rolled_epochs) next_reading next_writing next_keeping next_counting
        → (rolled_epochs ≡ epochs) × ReportTheSame writing next_writing }
{
    one_worker_logs_the_same();
    scripts_ask_for_keys_in_range();
    scripts_are_read_back();
}
