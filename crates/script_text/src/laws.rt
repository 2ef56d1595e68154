//! What follows from the definitions of scripts. These functions do nothing: their contracts are the laws.
ghost use Rattle.std.specs.Prelude.{◌≡◌, ℕ, ◌<◌, ◌≤◌, ◌^◌, List, ◌∷◌, Ok};
ghost use Rattle.lamport_clocks.specs.declared.header.Header.{Header};
ghost use Rattle.script_text.specs.declared.shape.Shape.{Shape};
ghost use Rattle.script_text.specs.declared.task.Task.{Task};
ghost use Rattle.script_text.specs.Generator.{key_for};
ghost use Rattle.script_text.specs.Script.{script_of};
ghost use Rattle.script_text.specs.Text.{script_text, AreTasks, IsScriptOf};

/// Phases that are written as a script are read of it, whatever the header. What is read of bytes is spelled so, and
/// each of its tasks is one that a line can ask.
pub fn scripts_are_read_back()
    ensures written { (header : Header) (phase : List Task) (phases : List (List Task))
        → header.verifiers < 2 ^ 16 → AreTasks header (phase ∷ phases)
        → script_of header (script_text (phase ∷ phases)) ≡ Ok (phase ∷ phases) }
    ensures spelled { (header : Header) (bytes : List ℕ) (phases : List (List Task))
        → header.verifiers < 2 ^ 16 → script_of header bytes ≡ Ok phases → IsScriptOf phases bytes }
    ensures tasks { (header : Header) (bytes : List ℕ) (phases : List (List Task))
        → header.verifiers < 2 ^ 16 → script_of header bytes ≡ Ok phases → AreTasks header phases }
{}

/// A load asks no two workers for one key, whatever was drawn.
pub fn keys_are_of_one_worker()
    ensures own { (shape : Shape) (one other a b : ℕ)
        → 0 < shape.keys → shape.keys ≤ 2 ^ 32 → shape.verifiers ≤ 2 ^ 16
        → one < shape.verifiers → other < shape.verifiers
        → key_for shape one a ≡ key_for shape other b → one ≡ other }
{}
