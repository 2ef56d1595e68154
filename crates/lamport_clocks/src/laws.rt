//! What follows from the definitions of the clock. These functions do nothing: their contracts are the laws.
ghost use Rattle.std.specs.Prelude.{◌≡◌, ℕ, ◌+◌, ◌≤◌, ◌↔◌, IsTrue, false, Option, Some};
ghost use Rattle.std.specs.declared.cmp.Ordering.TheVariants.{Less};
ghost use Rattle.lamport_clocks.specs.declared.stamp.Stamp.{Stamp};
ghost use Rattle.lamport_clocks.specs.Stamp.{stamp_cmp, IsLater};
ghost use Rattle.lamport_clocks.specs.Reading.{Reading, IsReading, SameBounds};
ghost use Rattle.lamport_clocks.specs.Clock.{received, sent, advanced, is_open};

use crate::stamp::Stamp;

/// The comparison of stamps is by epoch, then counter, and says which of two is later.
pub fn stamps_are_ordered()
    ensures compare { (s t : Stamp) → ⟦<Stamp as Ord>⟧.cmp s t ≡ stamp_cmp s t }
    ensures later { (s t : Stamp) → IsLater t s ↔ (stamp_cmp s t ≡ Less) }
{}

/// Each step that is taken sets the clock to a later stamp.
pub fn clock_never_falls()
    ensures receives { (clock after : Reading) (t : Stamp)
        → received clock t ≡ Ok after → IsLater after.at clock.at }
    ensures sends { (clock after : Reading) (t : Stamp)
        → sent clock t ≡ Ok after → IsLater after.at clock.at }
    ensures advances { (clock after : Reading) (sealed : Option ℕ)
        → advanced clock ≡ Ok (sealed, after) → IsLater after.at clock.at }
{}

/// No step changes the first epoch or the end of the counter, or passes them.
pub fn clock_keeps_its_bounds()
    ensures receives { (clock after : Reading) (t : Stamp)
        → received clock t ≡ Ok after → SameBounds clock after }
    ensures sends { (clock after : Reading) (t : Stamp)
        → sent clock t ≡ Ok after → SameBounds clock after }
    ensures advances { (clock after : Reading) (sealed : Option ℕ)
        → advanced clock ≡ Ok (sealed, after) → SameBounds clock after }

    ensures receives_within { (clock after : Reading) (t : Stamp)
        → IsReading clock → received clock t ≡ Ok after → IsReading after }
    ensures sends_within { (clock after : Reading) (t : Stamp)
        → IsReading clock → sent clock t ≡ Ok after → IsReading after }
    ensures advances_within { (clock after : Reading) (sealed : Option ℕ)
        → IsReading clock → advanced clock ≡ Ok (sealed, after) → IsReading after }
{}

/// A stamp that was taken in is of an open epoch, and the clock is later than it, in its own epoch still.
pub fn receiving_passes_the_stamp()
    ensures open_epoch { (clock after : Reading) (t : Stamp)
        → received clock t ≡ Ok after → IsTrue (is_open clock t.epoch) }
    ensures later { (clock after : Reading) (t : Stamp)
        → received clock t ≡ Ok after → IsLater after.at t }
    ensures epoch { (clock after : Reading) (t : Stamp)
        → received clock t ≡ Ok after → after.at.epoch ≡ clock.at.epoch }
{}

/// What was handed away is stamped by the clock after it, which is later than the clock before.
pub fn sending_sets_the_stamp()
    ensures stamp { (clock after : Reading) (t : Stamp) → sent clock t ≡ Ok after → after.at ≡ t }
    ensures later { (clock after : Reading) (t : Stamp)
        → sent clock t ≡ Ok after → IsLater t clock.at }
    ensures epoch { (clock after : Reading) (t : Stamp)
        → sent clock t ≡ Ok after → t.epoch ≡ clock.at.epoch }
{}

/// A step to the next epoch seals the epoch two before the one that it begins, if that is one from the first on. No stamp
/// of a sealed epoch is taken any more.
pub fn advancing_seals()
    ensures sealed { (clock after : Reading) (sealed : Option ℕ) → advanced clock ≡ Ok (sealed, after)
        → (epoch : ℕ)
        → (sealed ≡ Some epoch) ↔ ((clock.first ≤ epoch) × (epoch + 2 ≡ after.at.epoch)) }
    ensures closed { (clock after : Reading) (sealed : Option ℕ) → advanced clock ≡ Ok (sealed, after)
        → (epoch : ℕ) → sealed ≡ Some epoch → is_open after epoch ≡ false }
    ensures start { (clock after : Reading) (sealed : Option ℕ) → advanced clock ≡ Ok (sealed, after)
        → after.at ≡ record { epoch = clock.at.epoch + 1; counter = 0 } }
{}
