//! What takes bytes, and a write of a whole text.
ghost use Rattle.std.specs.Prelude.{◌≡◌, ℕ, ◌<◌, ◌≤◌, List, [], Option, None, length, IfOk, IfSome, OnOk, OnErr};
ghost use Rattle.fv_outside.specs.Faults.{Counts};
ghost use Rattle.fv_outside.specs.Written.{Grows, GrowsByFront, WriteGrows, IsNamed};

use crate::errors::Failed;

/// Where output goes.
pub trait Sink {
    // The bytes that the sink holds, where it tells them.
    ghost held: { Self → Option (List ℕ) };

    // How many faults the sink has had. The last value of the count is 2 ^ 64 - 1.
    ghost faults: { Self → ℕ };

    // The name of a sink that is a vault, where it tells it: none, or a text.
    ghost name: { Self → Option (Option (List ℕ)) } = { λ _. None };

    /// Appends the first 1 to `piece.len()` bytes of `piece` and answers how many, or appends none
    /// and answers `Failed`.
    fn write(&mut self, piece: &[u8]) -> Result<usize, Failed>
        requires not_empty { 0 < length piece.now }
        ensures bound { IfOk result (λ n. (1 ≤ n) × (n ≤ length piece.now)) }
        ensures bytes { WriteGrows (held self.old) (held self.new) result piece.now }
        ensures name { name self.new ≡ name self.old }
        ensures counts { Counts (faults self.old) (faults self.new) result };
}

/// A sink that can be given a name: once, and before anything is written to it.
pub trait Vault: Sink {
    // It was neither named nor written to.
    ghost fresh: { Self → Type 0 };

    /// Names the vault. On `Failed` the name is as it was.
    fn name(&mut self, path: &str) -> Result<(), Failed>
        requires fresh { fresh self.old }
        ensures named { OnOk result (IsNamed (Self.name self.old) (Self.name self.new) path.now) }
        ensures unnamed { OnErr result (Self.name self.new ≡ Self.name self.old) }
        ensures bytes { Self.held self.new ≡ Self.held self.old }
        ensures counts { Counts (Self.faults self.old) (Self.faults self.new) result };

    // Where a fresh vault tells its bytes there are none.
    ghost fresh_holds_nothing: { (v : Self) → fresh v → IfSome (Self.held v) (λ bytes. bytes ≡ []) };

    // Where a fresh vault tells its name it has none.
    ghost fresh_has_no_name: { (v : Self) → fresh v → IfSome (Self.name v) (λ name. name ≡ None) };
}

/// Writes the whole text, in as many writes as the sink takes for it. On `Failed` the sink holds a
/// front of the text.
pub fn write_all<O: Sink>(sink: &mut O, text: &[u8]) -> Result<(), Failed>
    ensures whole { OnOk result (Grows (O.held sink.old) (O.held sink.new) text.now) }
    ensures front { OnErr result (GrowsByFront (O.held sink.old) (O.held sink.new) text.now) }
    ensures name { O.name sink.new ≡ O.name sink.old }
    ensures counts { Counts (O.faults sink.old) (O.faults sink.new) result }
{
    let mut done = 0;
    while done < text.len() {
        done += sink.write(&text[done..])?;
    }
    Ok(())
}
