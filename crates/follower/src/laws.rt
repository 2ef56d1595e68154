//! What follows from the definition of the map that is followed. This function does nothing: its contract is the law.
ghost use Rattle.std.specs.Prelude.{◌≡◌, List};
ghost use Rattle.record_text.specs.declared.operation.Operation.{Operation};
ghost use Rattle.soundness.specs.World.{Stored, stored_behind};
ghost use Rattle.follower.specs.Followed.{map_behind};

/// The map that is followed is the plain map of which the laws of a host speak: where a run ends with all phases done, a follower of
/// the bundle in its vault writes what the contents that its runner keeps hold.
pub fn the_followed_map_is_the_plain_map()
    ensures same { (map : Stored) (operations : List Operation) → map_behind map operations ≡ stored_behind map operations }
{}
