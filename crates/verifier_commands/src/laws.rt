//! What follows from the definitions of the verifier. These functions do nothing: their contracts are the laws.
ghost use Rattle.std.specs.Prelude.{ℕ};
ghost use Rattle.lamport_clocks.specs.declared.header.Header.{Header};
ghost use Rattle.log_codec.specs.declared.log_command.LogCommand.{LogCommand};
ghost use Rattle.merkle_records.specs.Scheme.{Scheme};
ghost use Rattle.verifier_commands.specs.Machine.{Machine, opening_machine, stepped};
ghost use Rattle.verifier_commands.specs.Trace.{performed};
ghost use Rattle.verifier_commands.specs.Likeness.{IsLikeMachine, AreLikeAnswers};

/// Verifiers that are one but for the order in which their caches list entries by path refuse a command for the same; or
/// they do and answer the same, and are so again.
pub fn like_verifiers_stay_like()
    // Before its first command a verifier is like itself.
    ensures opening { (number : ℕ) (header : Header) → IsLikeMachine (opening_machine number header) (opening_machine number header) }
    ensures performed { (scheme : Scheme) (machine other : Machine) (command : LogCommand) → IsLikeMachine machine other
        → AreLikeAnswers (performed scheme machine command) (performed scheme other command) }
    ensures stepped { (scheme : Scheme) (machine other : Machine) (command : LogCommand) → IsLikeMachine machine other
        → AreLikeAnswers (stepped scheme machine command) (stepped scheme other command) }
{}
