//! What follows from the definitions of a cache's entries. These functions do nothing: their contracts are
//! the laws.
ghost use Rattle.std.specs.Prelude.{◌≡◌, ◌≢◌, ◌+◌, Bool, List, [], ◌∷◌, ◌++◌, length, Some, None, IsSome, IsNone};
ghost use Rattle.std.specs.Option.{option_map, option_or};
ghost use Rattle.verifier_cache.specs.declared.entry.Entry.{Entry};
ghost use Rattle.verifier_cache.specs.Entry.{kid_of, kid_after, set_kid};
ghost use Rattle.verifier_cache.specs.Slots.{Slots, empty_slots};
ghost use Rattle.verifier_cache.specs.Alike.{Rises};
ghost use Rattle.verifier_cache.specs.Listed.{listed_from, with_listed, SlotsRise};
ghost use Rattle.verifier_cache.specs.Cache.{entry_of, without, changed, replaced, KeepsPath, AreDistinct};

/// An entry that is found for a path is the path's.
pub fn entries_are_found_by_their_paths()
    ensures path { (k : List Bool) (entries : List Entry) (found : Entry)
        → entry_of k entries ≡ Some found → found.path ≡ k }
{}

/// Of entries that come in behind others, those are found whose paths were not there.
pub fn inserting_adds_one_entry()
    ensures found { (k : List Bool) (entries more : List Entry)
        → entry_of k (entries ++ more) ≡ option_or (entry_of k entries) (entry_of k more) }
    ensures distinct { (entries : List Entry) (entry : Entry) → AreDistinct entries
        → IsNone (entry_of entry.path entries) → AreDistinct (entries ++ entry ∷ []) }
{}

/// What is taken out is there no more, and the other paths have what they had.
pub fn removing_takes_one_entry()
    ensures gone { (k : List Bool) (entries : List Entry) → AreDistinct entries
        → entry_of k (without k entries) ≡ None }
    ensures others { (j k : List Bool) (entries : List Entry) → j ≢ k
        → entry_of j (without k entries) ≡ entry_of j entries }
    ensures len { (k : List Bool) (entries : List Entry) → IsSome (entry_of k entries)
        → length (without k entries) + 1 ≡ length entries }
    ensures distinct { (k : List Bool) (entries : List Entry) → AreDistinct entries
        → AreDistinct (without k entries) }
{}

/// A path that is changed has its entry changed, and the other paths have what they had.
pub fn changing_keeps_the_others()
    ensures found { (k : List Bool) (change : Entry → Entry) (entries : List Entry)
        → KeepsPath k change
        → entry_of k (changed k change entries) ≡ option_map change (entry_of k entries) }
    ensures others { (j k : List Bool) (change : Entry → Entry) (entries : List Entry)
        → KeepsPath k change → j ≢ k
        → entry_of j (changed k change entries) ≡ entry_of j entries }
    ensures len { (k : List Bool) (change : Entry → Entry) (entries : List Entry)
        → length (changed k change entries) ≡ length entries }
    ensures distinct { (k : List Bool) (change : Entry → Entry) (entries : List Entry)
        → KeepsPath k change → AreDistinct entries → AreDistinct (changed k change entries) }
    ensures replaced { (k : List Bool) (change : Entry → Entry) (entries : List Entry) (old : Entry)
        → entry_of k entries ≡ Some old → (change old).path ≡ k
        → changed k change entries ≡ replaced (change old) entries }
{}

/// An entry that is put in the place of another of its path is found there.
pub fn replacing_changes_one_entry()
    ensures found { (entries : List Entry) (new : Entry) → IsSome (entry_of new.path entries)
        → entry_of new.path (replaced new entries) ≡ Some new }
    ensures others { (k : List Bool) (entries : List Entry) (new : Entry) → k ≢ new.path
        → entry_of k (replaced new entries) ≡ entry_of k entries }
    ensures absent { (k : List Bool) (entries : List Entry) (new : Entry)
        → IsNone (entry_of k entries) → IsNone (entry_of k (replaced new entries)) }
    ensures distinct { (entries : List Entry) (new : Entry) → AreDistinct entries
        → AreDistinct (replaced new entries) }
{}

/// Setting a kid bit leaves the other as it was.
pub fn setting_a_kid_bit_keeps_the_other()
    ensures kids { (entry : Entry) (side on which : Bool)
        → kid_of (set_kid entry side on) which ≡ kid_after entry side on which }
{}

/// No path stands in two entries whose paths rise.
pub fn rising_paths_are_distinct()
    ensures distinct { (entries : List Entry) → Rises entries → AreDistinct entries }
{}

/// Slots are made again from what is listed of them, which rises by slot.
pub fn slots_are_made_again()
    ensures again { (slots : Slots)
        → with_listed (empty_slots (length slots)) (listed_from 0 slots) ≡ slots }
    ensures rise { (slots : Slots) → SlotsRise 0 (length slots) (listed_from 0 slots) }
{}
