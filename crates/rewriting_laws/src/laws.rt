//! What follows from the definition of rewriting. These functions do nothing: their contracts are the laws.
ghost use Rattle.std.specs.Prelude.{◌≡◌, ℕ, false, List, length, map, None};
ghost use Rattle.std.specs.List.{AllByRecursion};
ghost use Rattle.lamport_clocks.specs.declared.header.Header.{Header};
ghost use Rattle.lamport_clocks.specs.Header.{IsHeader, names_paths};
ghost use Rattle.log_codec.specs.declared.command.Command.{Command};
ghost use Rattle.log_codec.specs.declared.log_command.LogCommand.TheVariants.{BySlot};
ghost use Rattle.merkle_records.specs.Scheme.{Scheme};
ghost use Rattle.slot_rewriting.specs.Rewriting.{opening_paths, paths_behind, CanRewriteFrom};
ghost use Rattle.verifier_commands.specs.declared.state.State.{State};
ghost use Rattle.verifier_commands.specs.State.{opening};
ghost use Rattle.soundness.specs.History.{histories_of};
ghost use Rattle.soundness.specs.PathHistory.{path_log_events, path_log_refusal, path_histories_of};
ghost use Rattle.soundness.specs.StateHistory.{rules_under};
ghost use Rattle.soundness.specs.SlotHistory.{slot_log_events, slot_log_refusal};
ghost use Rattle.rewriting_laws.specs.RewrittenLog.{IsOfKind, rewritten_log, rewritten_logs, AreAccepted, Leads};

use soundness::versions_name_paths_or_slots;

/// A log whose commands name paths, none of which is refused and whose values are of their paths' kinds, can be rewritten
/// command by command. By slots it has the same events, so its operations, elements, stamps and sealed epochs are the same,
/// and none of its commands is refused either.
pub fn rewriting_keeps_histories()
    ensures can { (scheme : Scheme) (header : Header) (number : ℕ) (commands : List Command)
        → IsHeader header → AllByRecursion (IsOfKind scheme.format.longest) commands
        → path_log_refusal scheme header number commands ≡ None
        → CanRewriteFrom (opening_paths number header) commands }
    ensures events { (scheme : Scheme) (header : Header) (number : ℕ) (commands : List Command)
        → IsHeader header → AllByRecursion (IsOfKind scheme.format.longest) commands
        → path_log_refusal scheme header number commands ≡ None
        → slot_log_events scheme header number (rewritten_log header number commands) ≡ path_log_events scheme header number commands }
    ensures accepted { (scheme : Scheme) (header : Header) (number : ℕ) (commands : List Command)
        → IsHeader header → AllByRecursion (IsOfKind scheme.format.longest) commands
        → path_log_refusal scheme header number commands ≡ None
        → slot_log_refusal scheme header number (rewritten_log header number commands) ≡ None }

    // All logs of a bundle whose commands name slots have the histories that their commands have by path.
    ensures histories { (scheme : Scheme) (header : Header) (logs : List (List Command))
        → IsHeader header → AllByRecursion (AllByRecursion (IsOfKind scheme.format.longest)) logs
        → AreAccepted scheme header 0 logs → names_paths header ≡ false
        → histories_of scheme header (map (λ log. map BySlot log) (rewritten_logs header 0 logs)) ≡ path_histories_of scheme header logs }
{
    versions_name_paths_or_slots();
}

/// Where a log is accepted by path and leaves as many entries as its verifier began with, the same paths stand in the slots as at
/// the start: the root stays in slot 0 of verifier 0, since no command evicts it, and all other slots are empty again.
pub fn a_log_that_leaves_as_many_entries_comes_to_rest()
    ensures rests { (scheme : Scheme) (header : Header) (number : ℕ) (commands : List Command) (last : State)
        → IsHeader header → AllByRecursion (IsOfKind scheme.format.longest) commands
        → Leads (rules_under scheme header number) (opening number header) commands last
        → length last.cache.entries ≡ length (opening number header).cache.entries
        → paths_behind (opening_paths number header) commands ≡ opening_paths number header }
{}
