//! Where a request is served.
ghost use Rattle.std.specs.Prelude.{◌≡◌, ◌≢◌, ◌<◌, true, false, length, take, get_or, map};
ghost use Rattle.std.specs.List.{list_any};
ghost use Rattle.tree_keys.specs.Bits.{number_of, bits_of};
ghost use Rattle.tree_keys.specs.Path.{key_bits};
ghost use Rattle.record_text.specs.Longest.{longest_of};
ghost use Rattle.record_text.specs.Value.{IsBlob};
ghost use Rattle.host_core.specs.World.{shard_at};
ghost use Rattle.host_core.specs.WorldEvent.{IsPlace};
ghost use Rattle.host_plan.specs.Setup.{IsShardCount};
ghost use Rattle.host_shard.specs.Content.{vacant};
ghost use Rattle.host_shard.specs.Shown.{shown_content};
ghost use Rattle.protection_moves.specs.Stage.{is_hot_at};
ghost use Rattle.host_world.specs.Behind.{host_of, StandsBehind};
ghost use Rattle.host_world.specs.Places.{place_of};
ghost use Rattle.shipped_host.specs.Settings.{frontier_bits};
ghost use Rattle.host_world.specs.Shown.{contents_of, shown_world, digests_of, settings_of};

use crate::acting::PLACES_EACH;
use crate::seats::Seats;
use crate::world::World;
use host_shard::Content;
use record_hash::Digests;
use record_text::{Request, wide_of};
use tree_keys::key_bits;

// The number of the shard below whose frontier a key of a tree lies: that of the key's first bits, as many as a frontier has.
fn shard_of(wide: bool, key: u128, shards: u32) -> u32
    requires shards { IsShardCount shards }
    ensures first_bits { result ≡ number_of (take (frontier_bits shards) (bits_of (key_bits wide) key)) }
    ensures there { result < shards }
{
    let key = if wide { key } else { key % (1 << 64) };
    (key >> (u32::from(key_bits(wide)) - shards.ilog2())) as u32
}

// Whether a content is the record of this hot key.
fn is_hot_at(content: &Content, key: u128) -> bool
    ensures value { result ≡ is_hot_at key (shown_content content.now) }
{
    match content {
        Content::Hot(found) => found.key == key,
        _ => false,
    }
}

impl Seats {
    // The seat of a key that lies below the shard's frontier: the hot place that has it, or else the shard's own.
    fn seat_of(&self, key: u128) -> usize
        ensures hot { result ≢ 0 → is_hot_at key (get_or (contents_of self.now) result vacant) ≡ true }
        ensures cold { result ≡ 0 → list_any (is_hot_at key) (map shown_content self.now.hot.items) ≡ false }
        ensures there { result < length (contents_of self.now) }
    {
        for (at, content) in self.hot.iter().enumerate() {
            if is_hot_at(content, key) {
                return at + 1;
            }
        }
        0
    }
}

impl<'a, D: Digests> World<'a, D> {
    /// The number of the place at which a request is served: the hot place that has its key, or else the place of the shard
    /// below whose frontier its key lies. The place takes it with a value that a key may have.
    pub fn place_for(&self, request: &Request) -> u32
        requires behind { StandsBehind (D.functions (digests_of self.now)) self.now }
        ensures there { IsPlace (shown_world self.now) (place_of result) }
        ensures owns { IsBlob (longest_of (settings_of self.now).header) request.now.value
            → (host_of (D.functions (digests_of self.now)) self.now).owns (place_of result).shard
            (shard_at (shown_world self.now) (place_of result).shard).contents (place_of result).seat request.now ≡ true }
    {
        let wide = wide_of(&self.settings.header);
        let shard = shard_of(wide, request.key, self.settings.shards);
        let seat = self.shards[shard as usize].seat_of(request.key);
        shard * PLACES_EACH + seat as u32
    }
}
