//! Why a script is not read.
use base_words::Memory;
use record_text::Cause;

/// Why a script is not read.
#[derive(Clone, Copy, Debug, PartialEq, Eq)]
pub enum ScriptFault {
    /// This line, counted from 1, is the first outside the grammar, and this is the first test that it doesn't pass.
    BadScript { line: u64, cause: Cause },
    /// Want of memory.
    Memory,
}

impl From<Memory> for ScriptFault {
    ghost use Rattle.std.specs.Prelude.{◌≡◌};
    ghost use Rattle.script_text.specs.declared.fault.ScriptFault.TheVariants.{Memory};

    ghost from_gives = { λ _ fault. fault ≡ Memory };

    fn from(_e: Memory) -> ScriptFault {
        ScriptFault::Memory
    }
}
