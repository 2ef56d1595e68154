//! What gives bytes.
ghost use Rattle.std.specs.Prelude.{ℕ, ◌<◌, List, Option, length};
ghost use Rattle.std.specs.Io.{ReadsAtMost};
ghost use Rattle.std.specs.Io.KnownBytes.{ReadConsumes};
ghost use Rattle.fv_outside.specs.Faults.{Counts};

use crate::errors::Failed;

/// Where input comes from.
pub trait Source {
    // The bytes that are left to give, where the source tells them.
    ghost left: { Self → Option (List ℕ) };

    // How many faults the source has had. The last value of the count is 2 ^ 64 - 1.
    ghost faults: { Self → ℕ };

    /// Gives 1 to `room.len()` of the first bytes left, at the front of `room`, and answers how
    /// many, or 0 at the end. On `Failed` no byte is lost: what was left is left still.
    fn read(&mut self, room: &mut [u8]) -> Result<usize, Failed>
        requires not_empty { 0 < length room.old }
        ensures bound { ReadsAtMost result room.new }
        ensures bytes { ReadConsumes (left self.old) (left self.new) result room.new }
        ensures counts { Counts (faults self.old) (faults self.new) result };
}
