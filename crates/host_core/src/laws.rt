//! What holds of a host's world behind every list of events that are enabled from the setup on, whatever the script, the
//! workers, the shards and the numbers of the host. These functions do nothing: their contracts are the laws. What they
//! take of the host is `IsFit` of `specs/Deeds.antt`.
ghost use Rattle.std.specs.Prelude.{◌≡◌, ℕ, Bool, true, false, List, ◌++◌};
ghost use Rattle.host_core.specs.Host.{Host};
ghost use Rattle.host_core.specs.World.{World};
ghost use Rattle.host_core.specs.WorldEvent.{WorldEvent, AreEnabled, run_events};
ghost use Rattle.host_core.specs.Clear.{HoldsIfClear, HasNothingToShow, IsServedSerially};
ghost use Rattle.host_core.specs.Storing.{HoldsIfStoring, HoldsAnswered, HoldsCertified};
ghost use Rattle.host_core.specs.Core.{HoldsBehind, HoldsAlways, IsStanding, AreAccepted, AreAnswered, AreAnsweredInTime, IsDone, IsRoundDone, IsEven, IsInPhase, IsDueInPhase, IsInRound, IsLevelBehindRound, IsBehindClose, AreSealed, SealedArePermuted, AllCertified, IsWhole};

/// Events that are enabled behind others are enabled with them, and lead where both lead, one behind the other.
pub fn events_go_on<C, R>()
    ensures enabled { (host : Host C R) (world : World C) (events more : List (WorldEvent R))
        → AreEnabled host world events → AreEnabled host (run_events host world events) more → AreEnabled host world (events ++ more) }
    ensures run { (host : Host C R) (world : World C) (events more : List (WorldEvent R))
        → run_events host world (events ++ more) ≡ run_events host (run_events host world events) more }
{}

/// No verifier refuses a command of a log, and each is at rest behind its log, with the worker's clock.
pub fn logs_are_accepted<C, R>()
    ensures accepted { (host : Host C R) → HoldsAlways host (AreAccepted host) }
{}

/// What a log answers is the front of what the script asks of its worker, each request of a phase in the phase's epoch, and
/// in a rolling host in that or a later one. Where the last phase is over and no clock ended, it is all that is asked, and
/// so it is behind a round.
pub fn answers_follow_the_script<C, R>()
    ensures front { (host : Host C R) → host.rolling ≡ false → HoldsAlways host (AreAnswered host) }
    ensures whole { (host : Host C R) → host.rolling ≡ false → HoldsAlways host (IsDone host) }
    ensures in_time { (host : Host C R) → HoldsAlways host (AreAnsweredInTime host) }
    ensures round { (host : Host C R) → host.rolling ≡ true → HoldsAlways host (IsRoundDone host) }
{}

/// All evicted elements together are a permutation of all added ones with the pending elements of all contents.
pub fn evicted_elements_are_added_or_wait<C, R>()
    ensures even { (host : Host C R) → HoldsAlways host (IsEven host) }
{}

/// In a phase each clock and each pending element is of the phase's epoch, no shard is moved, and what may be served is the
/// worker's next request of the phase. In the round of a rolling host they are of the newest epoch or of the one before, and
/// where the round is over they are of the last phase's. Behind a whole close each pending element is of the next epoch.
pub fn pending_elements_are_of_the_epoch<C, R>()
    ensures phase { (host : Host C R) → host.rolling ≡ false → HoldsAlways host (IsInPhase host) }
    ensures due { (host : Host C R) → host.rolling ≡ false → HoldsAlways host (IsDueInPhase host) }
    ensures round { (host : Host C R) → host.rolling ≡ true → HoldsAlways host (IsInRound host) }
    ensures level { (host : Host C R) → HoldsAlways host (IsLevelBehindRound host) }
    ensures close { (host : Host C R) → HoldsAlways host (IsBehindClose host) }
{}

/// There are as many workers and shards as behind the setup, each clock is one of the host, each shard mirrors, and what an enabled
/// event does at a shard is ready to be done: the worker's clock can take in what waits there.
pub fn what_is_enabled_is_ready<C, R>()
    ensures ready { (host : Host C R) (mirrors : ℕ → List C → Bool)
        → HoldsBehind (λ s contents. mirrors s contents ≡ true) host (IsStanding (λ s contents. mirrors s contents ≡ true) host) }
{}

/// Each worker has sealed the epochs before the one before its clock's. Of each epoch that all have sealed the added
/// elements are a permutation of the evicted ones, and it is certified. Behind a whole last close these are the epochs of
/// all phases.
pub fn sealed_epochs_are_certified<C, R>()
    ensures sealed { (host : Host C R) → HoldsAlways host (AreSealed host) }
    ensures permuted { (host : Host C R) → HoldsAlways host (SealedArePermuted host) }
    ensures certified { (host : Host C R) → HoldsAlways host (AllCertified host) }
    ensures whole { (host : Host C R) → HoldsAlways host (IsWhole host) }
{}

/// Where each record comes back by its digest with the value that it left with, an audit of the certified epochs has
/// nothing to show. So their answers are serial, without the case of a collision.
pub fn certified_answers_are_serial<C, R>()
    ensures exhibit { (host : Host C R) → HoldsIfClear host (HasNothingToShow host) }
    ensures serial { (host : Host C R) → HoldsIfClear host (IsServedSerially host) }
{}

/// Where each operation on a key is done where the key's value is held, the contents hold the plain map behind all operations in
/// their one order. Behind a whole last close these are the certified operations.
pub fn contents_hold_the_plain_map<C, R>()
    ensures answered { (host : Host C R) → HoldsIfStoring host (HoldsAnswered host) }
    ensures certified { (host : Host C R) → HoldsIfStoring host (HoldsCertified host) }
{}
