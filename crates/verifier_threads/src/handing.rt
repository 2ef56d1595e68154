//! What all workers logged, handed out.
ghost use Rattle.std.specs.Prelude.{◌≡◌, ◌≤◌, length, OnOk};
ghost use Rattle.lamport_clocks.specs.Header.{IsHeader};
ghost use Rattle.slot_rewriting.specs.Writing.{written_logs};
ghost use Rattle.host_core.specs.World.{logs_of};
ghost use Rattle.host_world.specs.Shown.{shown_world, settings_of};
ghost use Rattle.host_world.specs.Behind.{AreOfOneHost};
ghost use Rattle.verifier_threads.specs.Running.{all_handed_out};

use base_words::Memory;
use host_log::LogBuffer;
use host_world::World;
use record_hash::Digests;

/// Each buffer takes the log of what its worker logged since it was last handed out, and nothing else, and the world forgets that.
pub(crate) fn hand_out_all<D: Digests>(
    world: &mut World<'_, D>,
    buffers: &mut [LogBuffer],
) -> Result<(), Memory>
    requires each { length buffers.old ≡ length (shown_world world.old).workers }
    requires header { IsHeader (settings_of world.old).header }
    requires few { length buffers.old ≤ 64 }
    ensures handed { OnOk result (buffers.new ≡ written_logs (settings_of world.old).header (logs_of (shown_world world.old))) }
    ensures forgotten { OnOk result (shown_world world.new ≡ all_handed_out (shown_world world.old)) }
    ensures host { AreOfOneHost world.old world.new }
{
    for worker in 0..buffers.len() {
        world.hand_out(worker as u16, &mut buffers[worker])?;
    }
    Ok(())
}
