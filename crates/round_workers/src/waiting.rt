//! How a worker waits until the next epoch may be entered.
ghost use Rattle.std.specs.Prelude.{◌≡◌, ◌≤◌, ◌+◌, ◌<◌, suc, true, false, IfOk, OnOk};
ghost use Rattle.lamport_clocks.specs.Clock.{last_epoch};
ghost use Rattle.host_epochs.specs.Hands.{entered, row_of, IsFree};
ghost use Rattle.host_epochs.specs.Table.{table, terms};
ghost use Rattle.host_epochs.specs.Terms.{first_epoch};
ghost use Rattle.round_workers.specs.Placed.{AreSeen, HasOpened, StandsAs};
ghost use Rattle.round_workers.specs.Sharing.{IsSharedRound};
ghost use Rattle.round_workers.specs.Working.{GoesOnAs, HasEnded, IsRunning, IsOn, IsSending, KeepsUpTo};

use crate::shared_round::SharedRound;
use crate::worker_thread::WorkerThread;
use base_words::Memory;
use record_hash::Digests;
use std::sync::Wait;
use std::thread::yield_now;

impl WorkerThread {
    /// Waits until the next epoch may be entered, and enters it. Once all workers are through with this one, it lets them go on. It ends
    /// where another worker stopped: the answer says whether it goes on.
    pub(crate) fn wait<R: Wait, D: Digests>(
        &mut self,
        rt: &R,
        shared: &SharedRound<'_, D>,
    ) -> Result<bool, Memory>
        requires shared { IsSharedRound D.functions shared.now }
        requires more { entered self.old.hand < (terms D.functions shared.now.epochs.now).more }
        requires room { first_epoch (terms D.functions shared.now.epochs.now) + entered self.old.hand < last_epoch }
        requires free { IsFree (table shared.now.epochs.now) self.old.hand }
        requires sends { IsSending self.old }
        requires going { IsRunning (terms D.functions shared.now.epochs.now) self.old }
        ensures free { IsFree (table shared.now.epochs.now) self.new.hand }
        ensures sends { IsSending self.new }
        ensures goes_on { GoesOnAs self.old self.new }
        ensures going { IfOk result (λ on. on ≡ true → IsRunning (terms D.functions shared.now.epochs.now) self.new) }
        ensures next { IfOk result (λ on. on ≡ true → entered self.new.hand ≡ suc (entered self.old.hand)) }
        ensures ended { IfOk result (λ on. on ≡ false → HasEnded self.new.hand) }
        ensures keeps { OnOk result (KeepsUpTo (suc (entered self.old.hand)) (terms D.functions shared.now.epochs.now) self.old self.new) }
        ensures opened { IfOk result (λ on. on ≡ true → HasOpened (terms D.functions shared.now.epochs.now) (row_of self.new.hand)) }
    {
        let mut found = 0;
        for _ in rt.forever() {
            if shared.epochs.stopped(&mut self.hand) {
                return Ok(false);
            }
            if shared.is_given_up() {
                return Err(Memory);
            }
            found = self.look(shared, found);
            if self.enter(shared)? {
                return Ok(true);
            }
            yield_now();
        }
        unreachable!()
    }

    // Looks how many workers, from the first on, are through with this one's epoch, where so many were found to be before. Where all
    // are, it lets them go on to the next.
    fn look<D: Digests>(&mut self, shared: &SharedRound<'_, D>, found: u16) -> u16
        requires shared { IsSharedRound D.functions shared.now }
        requires free { IsFree (table shared.now.epochs.now) self.old.hand }
        requires counted { self.old.entered ≡ entered self.old.hand }
        requires found { found ≤ (terms D.functions shared.now.epochs.now).workers }
        requires seen { AreSeen self.old.hand found }
        requires more { entered self.old.hand < (terms D.functions shared.now.epochs.now).more }
        requires room { first_epoch (terms D.functions shared.now.epochs.now) + entered self.old.hand < last_epoch }
        ensures free { IsFree (table shared.now.epochs.now) self.new.hand }
        ensures found { result ≤ (terms D.functions shared.now.epochs.now).workers }
        ensures seen { AreSeen self.new.hand result }
        ensures row { row_of self.new.hand ≡ row_of self.old.hand }
        ensures stands { StandsAs self.old.hand self.new.hand }
        ensures worker { self.new.worker ≡ self.old.worker }
        ensures outbox { self.new.outbox ≡ self.old.outbox }
        ensures entered { self.new.entered ≡ self.old.entered }
    {
        for worker in found..shared.workers {
            if shared.epochs.done(&mut self.hand, worker) < self.entered {
                return worker;
            }
        }
        shared.epochs.raise(&mut self.hand);
        shared.workers
    }
}
