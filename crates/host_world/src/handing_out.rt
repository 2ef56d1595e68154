//! What workers logged, handed out.
ghost use Rattle.std.specs.Prelude.{◌≡◌, ◌<◌, List, [], ◌++◌, length, get_or, set, OnOk, OnErr};
ghost use Rattle.lamport_clocks.specs.Header.{IsHeader};
ghost use Rattle.log_codec.specs.declared.command.Command.{Command};
ghost use Rattle.slot_rewriting.specs.Writing.{written_log};
ghost use Rattle.worker_log.specs.Logged.{AreWritable};
ghost use Rattle.host_core.specs.World.{worker_at};
ghost use Rattle.host_core.specs.WorldEvent.{with_worker};
ghost use Rattle.host_world.specs.Shown.{shown_world, digests_of, settings_of};
ghost use Rattle.host_world.specs.Behind.{host_of, log_at, StandsWith, AreOfOneHost};

use crate::world::World;
use base_words::Memory;
use host_log::LogBuffer;
use record_hash::Digests;
use slot_rewriting::CommandWriter;

impl<'a, D: Digests> World<'a, D> {
    /// The bytes of the log of the commands that a worker logged since it was last handed out go to a buffer, in place of what that
    /// held, and the world forgets them. For want of memory world and buffer are as before.
    pub fn hand_out(&mut self, worker: u16, buffer: &mut LogBuffer) -> Result<(), Memory>
        requires there { worker < length (shown_world self.old).workers }
        requires header { IsHeader (settings_of self.old).header }
        ensures handed { OnOk result (buffer.new ≡ written_log (settings_of self.old).header worker (log_at self.old worker)) }
        ensures writable { OnOk result (AreWritable (log_at self.old worker)) }
        ensures forgotten { OnOk result (shown_world self.new ≡ with_worker (shown_world self.old) worker
            (record (worker_at (host_of (D.functions (digests_of self.old)) self.old) (shown_world self.old) worker) { log = [] })) }
        ensures host { AreOfOneHost self.old self.new }
        ensures as_before { OnErr result (shown_world self.new ≡ shown_world self.old) }
        ensures buffer_as_before { OnErr result (buffer.new ≡ buffer.old) }

        // What was handed out before goes on with it.
        ensures goes_on { (logs : List (List Command)) → StandsWith (D.functions (digests_of self.old)) self.old logs
            → OnOk result (StandsWith (D.functions (digests_of self.new)) self.new
            (set logs worker (get_or logs worker [] ++ log_at self.old worker))) }
    {
        let writer = CommandWriter::new(self.alloc, worker, &self.settings.header)?;
        let log = &mut self.workers[worker as usize].log;
        log.settle()?;
        log.hand_out(writer, buffer);
        Ok(())
    }
}
