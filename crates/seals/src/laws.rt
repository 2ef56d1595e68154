//! What follows from the definitions of seals. These functions do nothing: their contracts are the laws.
ghost use Rattle.std.specs.Prelude.{◌≡◌, ◌<◌, ◌≤◌, ◌^◌, ℕ, ◌+◌, ◌-◌, true, false, List, ◌∷◌, ◌++◌, length, take, All, Ok, Err};
ghost use Rattle.std.specs.List.{AllByRecursion};
ghost use Rattle.lamport_clocks.specs.declared.header.Header.{Header};
ghost use Rattle.lamport_clocks.specs.Header.{IsHeader, names_paths};
ghost use Rattle.record_hash.specs.Functions.{DigestFunctions};
ghost use Rattle.record_text.specs.declared.reader.TextFault.TheVariants.{Truncated};
ghost use Rattle.record_text.specs.Fields.{KeepsOn};
ghost use Rattle.receipts.specs.Receipts.{tagged};
ghost use Rattle.verifier_cache.specs.Cache.{AreDistinct};
ghost use Rattle.verifier_cache.specs.Listed.{entries_in, SlotsRise};
ghost use Rattle.seals.specs.declared.state.SealedState.{SealedState};
ghost use Rattle.seals.specs.State.{KeptRun, Seal};
ghost use Rattle.seals.specs.Kept.{seal_in};
ghost use Rattle.seals.specs.Run.{run_at, run_text, IsGoodRun};
ghost use Rattle.seals.specs.Seal.{seal_at, seal_text, tag_bytes, IsGoodSeal};
ghost use Rattle.seals.specs.Answer.{IsWhole, IsUntagged};
ghost use Rattle.seals.specs.Numbered.{numbered};
ghost use Rattle.seals.specs.Meaning.{HasStood, IsClock, AreByPath, AreWithin, PartsFrom, AreSmall, IsOpen, OperationsRise};

/// What a verifier can have come to is read back from its text, whatever follows. What is read is spelled so, and a verifier can have come
/// to it.
pub fn runs_are_read_back()
    ensures read { (header : Header) (certified taken number : ℕ) (run : KeptRun) (rest : List ℕ)
        → IsGoodRun header certified taken number run
        → run_at header certified taken number (run_text run ++ rest) ≡ Ok (run, rest) }
    ensures spelled { (header : Header) (certified taken number : ℕ) (bytes : List ℕ) (run : KeptRun) (rest : List ℕ)
        → All (λ byte. byte < 256) bytes → run_at header certified taken number bytes ≡ Ok (run, rest)
        → (bytes ≡ run_text run ++ rest) × IsGoodRun header certified taken number run }
{}

/// A seal is read back from its text and any tag, whatever follows. What is read is spelled so and within the bounds. A seal that is cut
/// short leaves it open, wherever it is cut. And what is written of a state within the bounds is read as that state, with its tag.
pub fn seals_are_read_back()
    ensures read { (seal : Seal) (tag rest : List ℕ) → IsGoodSeal seal → length tag ≡ tag_bytes
        → seal_at (seal_text seal ++ tag ++ rest) ≡ Ok ((seal, tag), rest) }
    ensures spelled { (bytes : List ℕ) (seal : Seal) (tag rest : List ℕ) → All (λ byte. byte < 256) bytes
        → seal_at bytes ≡ Ok ((seal, tag), rest)
        → (bytes ≡ seal_text seal ++ tag ++ rest) × IsGoodSeal seal × (length tag ≡ tag_bytes) }
    ensures cut { (seal : Seal) (tag front : List ℕ) (c : ℕ) (more : List ℕ) → IsGoodSeal seal
        → length tag ≡ tag_bytes → seal_text seal ++ tag ≡ front ++ c ∷ more
        → seal_at front ≡ Err Truncated }
    ensures written { (functions : DigestFunctions) (state : SealedState) (rest : List ℕ) → IsGoodSeal (seal_in state)
        → length (functions.tag (seal_text (seal_in state))) ≡ tag_bytes
        → IsWhole functions (tagged functions (seal_text (seal_in state)) ++ rest) state
        (length (tagged functions (seal_text (seal_in state)))) }
{}

/// The bytes of a whole seal are the text of what it keeps and the tag of that text, and what it keeps is within the bounds.
pub fn whole_seals_are_tagged()
    ensures tagged { (functions : DigestFunctions) (bytes : List ℕ) (state : SealedState) (count : ℕ)
        → All (λ byte. byte < 256) bytes → IsWhole functions bytes state count
        → take count bytes ≡ tagged functions (seal_text (seal_in state)) }
    ensures good { (functions : DigestFunctions) (bytes : List ℕ) (state : SealedState) (count : ℕ)
        → All (λ byte. byte < 256) bytes → IsWhole functions bytes state count
        → IsGoodSeal (seal_in state) }
{}

/// Bytes begin with no more than one seal, of so many bytes, and its tag holds or it doesn't.
pub fn bytes_begin_with_one_seal()
    ensures state { (functions : DigestFunctions) (bytes : List ℕ) (state other : SealedState) (count size : ℕ)
        → IsWhole functions bytes state count → IsWhole functions bytes other size → seal_in state ≡ seal_in other }
    ensures count { (functions : DigestFunctions) (bytes : List ℕ) (state other : SealedState) (count size : ℕ)
        → IsWhole functions bytes state count → IsWhole functions bytes other size → count ≡ size }
    ensures tag { (functions : DigestFunctions) (bytes : List ℕ) (state : SealedState) (count : ℕ)
        → IsWhole functions bytes state count → IsUntagged functions bytes → ⊥ }
{}

/// More bytes behind change neither what was read as a seal, nor that the bytes are none: so an answer to the front of a source stands
/// whatever follows, but that it is open.
pub fn seals_keep_on()
    ensures seals { KeepsOn seal_at }
    ensures runs { (header : Header) (certified taken number : ℕ) → KeepsOn (run_at header certified taken number) }
    ensures whole { (functions : DigestFunctions) (bytes more : List ℕ) (state : SealedState) (count : ℕ)
        → IsWhole functions bytes state count → IsWhole functions (bytes ++ more) state count }
    ensures untagged { (functions : DigestFunctions) (bytes more : List ℕ)
        → IsUntagged functions bytes → IsUntagged functions (bytes ++ more) }
{}

/// A seal's text that is given another number is the text of the seal with that number, with its tag.
pub fn seals_take_their_numbers()
    ensures number { (functions : DigestFunctions) (seal : Seal) (tag : List ℕ) (number : ℕ) → length tag ≡ tag_bytes
        → numbered functions number (seal_text seal ++ tag)
        ≡ tagged functions (let renumbered : Seal = record seal { counter = number } in seal_text renumbered) }
    ensures good { (seal : Seal) (number : ℕ) → IsGoodSeal seal → number < 2 ^ 64
        → (let renumbered : Seal = record seal { counter = number } in IsGoodSeal renumbered) }
{}

/// What the bounds say of a verifier, in the words of what goes on from it.
pub fn bounds_say_more()
    ensures clock { (header : Header) (certified taken number : ℕ) (run : KeptRun) → IsGoodRun header certified taken number run
        → IsClock header certified taken run.at run.accepted }
    ensures few_entries { (header : Header) (certified taken number : ℕ) (run : KeptRun) → IsGoodRun header certified taken number run
        → length run.entries ≤ header.cache }
    ensures by_path { (header : Header) (certified taken number : ℕ) (run : KeptRun) → IsGoodRun header certified taken number run
        → names_paths header ≡ true → AreByPath run.entries }
    ensures distinct { (header : Header) (certified taken number : ℕ) (run : KeptRun) → IsGoodRun header certified taken number run
        → names_paths header ≡ true → AreDistinct (entries_in run.entries) }
    ensures by_slot { (header : Header) (certified taken number : ℕ) (run : KeptRun) → IsGoodRun header certified taken number run
        → names_paths header ≡ false → SlotsRise 0 header.cache run.entries }
    ensures sums { (header : Header) (certified taken number : ℕ) (run : KeptRun) → IsGoodRun header certified taken number run
        → AreWithin header run }

    // One part of each epoch that is sealed and not certified, and the operations of epochs that are not certified.
    ensures parts { (header : Header) (certified taken number : ℕ) (run : KeptRun) → IsGoodRun header certified taken number run
        → PartsFrom (header.first + certified) run.parts }
    ensures each_sealed { (header : Header) (certified taken number : ℕ) (run : KeptRun) → IsGoodRun header certified taken number run
        → length run.parts ≡ run.at.epoch - (header.first + certified + 1) }
    ensures small_parts { (header : Header) (certified taken number : ℕ) (run : KeptRun) → IsGoodRun header certified taken number run
        → AreSmall header run.parts }
    ensures operations { (header : Header) (certified taken number : ℕ) (run : KeptRun) → IsGoodRun header certified taken number run
        → AllByRecursion (IsOpen header certified run) run.operations }
    ensures rising { (header : Header) (certified taken number : ℕ) (run : KeptRun) → IsGoodRun header certified taken number run
        → OperationsRise run.operations }
{}

/// What a verifier has come to, said in the same words, passes the tests: so it has a text, which is read back.
pub fn what_stands_is_good()
    ensures run { (header : Header) (certified taken number : ℕ) (run : KeptRun) → IsHeader header
        → HasStood header certified taken number run → IsGoodRun header certified taken number run }
{}
