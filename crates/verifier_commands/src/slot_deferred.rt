//! The commands that come and go with a stamp, by slots.
ghost use Rattle.std.specs.Prelude.{◌≡◌, IfOk};
ghost use Rattle.base_words.specs.Follows.{Follows};
ghost use Rattle.verifier_commands.specs.SlotTransition.{add_b, evict_b, evict_bm};
ghost use Rattle.verifier_commands.specs.Answer.{answered, ClockMoves};

use crate::answer::Answer;
use crate::changes::defer_under;
use crate::deferred::is_by_stamp;
use crate::lanes::lanes_of;
use crate::slot_state::SlotState;
use crate::state::{clock_refusal, is_root};
use lamport_clocks::Stamp;
use record_hash::Digests;
use record_text::{Refusal, Value};
use tree_keys::Path;
use verifier_cache::{Entry, Hold};

impl SlotState {
    /// Takes a record that some verifier evicted with this stamp back into a slot.
    pub(crate) fn add_b<'a, D: Digests>(
        &mut self,
        d: &D,
        verifiers: u16,
        slot: u16,
        path: &Path,
        value: &Value,
        stamp: Stamp,
        verifier: u16,
    ) -> Result<Answer<'a>, Refusal>
        ensures follows { Follows result self.old self.new (answered (D.functions d.now).lanes (add_b verifiers self.old slot path.now value.now stamp verifier)) }
        ensures clock { IfOk result (ClockMoves self.old.clock self.new.clock) }
    {
        if is_root(path) {
            return Err(Refusal::IsRoot);
        }
        if !self.slots.is_slot(slot) {
            return Err(Refusal::CacheFull);
        }
        if self.slots.at(slot).is_some() {
            return Err(Refusal::SlotTaken);
        }
        if verifier >= verifiers {
            return Err(Refusal::NoSuchVerifier);
        }
        if let Err(fault) = self.clock.on_add(stamp) {
            return Err(clock_refusal(fault));
        }
        let lanes = lanes_of(d, path, value, stamp, verifier);
        self.slots
            .put_at(slot, Entry::new(*path, value.copy(), Hold::B));
        Ok(Answer::AddB(stamp.epoch, lanes))
    }

    /// Evicts the record in a slot with a stamp.
    pub(crate) fn evict_b<'a, D: Digests>(
        &mut self,
        d: &D,
        number: u16,
        slot: u16,
        stamp: Stamp,
    ) -> Result<Answer<'a>, Refusal>
        ensures follows { Follows result self.old self.new (answered (D.functions d.now).lanes (evict_b number self.old slot stamp)) }
        ensures clock { IfOk result (ClockMoves self.old.clock self.new.clock) }
    {
        let Some(child) = self.slots.at(slot) else {
            return Err(Refusal::SlotEmpty);
        };
        if is_root(&child.path) {
            return Err(Refusal::IsRoot);
        }
        if child.has_kid() {
            return Err(Refusal::HasChild);
        }
        if !is_by_stamp(child.hold) {
            return Err(Refusal::WrongHold);
        }
        if let Err(fault) = self.clock.on_evict(stamp) {
            return Err(clock_refusal(fault));
        }
        let lanes = lanes_of(d, &child.path, &child.value, stamp, number);
        self.slots.leave_at(slot);
        Ok(Answer::EvictB(lanes))
    }

    /// Evicts the record in a slot with a stamp, and marks its parent's pointer as deferred.
    #[tactic(auto, using(crate::proofs::SlotLemmas::slot_view))]
    pub(crate) fn evict_bm<'a, D: Digests>(
        &mut self,
        d: &D,
        number: u16,
        slot: u16,
        parent: u16,
        stamp: Stamp,
    ) -> Result<Answer<'a>, Refusal>
        ensures follows { Follows result self.old self.new (answered (D.functions d.now).lanes (evict_bm number self.old slot parent stamp)) }
        ensures clock { IfOk result (ClockMoves self.old.clock self.new.clock) }
    {
        let Some(child) = self.slots.at(slot) else {
            return Err(Refusal::SlotEmpty);
        };
        if is_root(&child.path) {
            return Err(Refusal::IsRoot);
        }
        let Some(holder) = self.slots.at(parent) else {
            return Err(Refusal::SlotEmpty);
        };
        let link = defer_under(holder, child)?;
        if let Err(fault) = self.clock.on_evict(stamp) {
            return Err(clock_refusal(fault));
        }
        let lanes = lanes_of(d, &child.path, &child.value, stamp, number);
        self.slots.link_at(parent, link.on, link.pointer, false);
        self.slots.leave_at(slot);
        Ok(Answer::EvictBM(lanes))
    }
}
