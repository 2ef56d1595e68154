//! The commands that come and go by digests, by slots.
ghost use Rattle.std.specs.Prelude.{IfOk};
ghost use Rattle.base_words.specs.Follows.{Follows};
ghost use Rattle.verifier_commands.specs.SlotTransition.{add_m, evict_m};
ghost use Rattle.verifier_commands.specs.Answer.{answered, ClockMoves};

use crate::answer::Answer;
use crate::changes::{Join, add_under, evict_under};
use crate::slot_state::SlotState;
use crate::state::is_root;
use record_hash::Digests;
use record_text::{Refusal, Value};
use tree_keys::Path;

impl SlotState {
    /// Adds a record into a slot, under its parent, whose digest vouches for it.
    #[tactic(auto, using(crate::proofs::SlotLemmas::slot_view))]
    pub(crate) fn add_m<'a, D: Digests>(
        &mut self,
        d: &D,
        slot: u16,
        path: &Path,
        value: &Value,
        parent: u16,
    ) -> Result<Answer<'a>, Refusal>
        ensures follows { Follows result self.old self.new
            (answered (D.functions d.now).lanes (add_m (D.functions d.now).digest self.old slot path.now value.now parent)) }
        ensures clock { IfOk result (ClockMoves self.old.clock self.new.clock) }
    {
        if is_root(path) {
            return Err(Refusal::IsRoot);
        }
        if !self.slots.is_slot(slot) {
            return Err(Refusal::CacheFull);
        }
        if self.slots.at(slot).is_some() {
            return Err(Refusal::SlotTaken);
        }
        let Some(holder) = self.slots.at(parent) else {
            return Err(Refusal::SlotEmpty);
        };
        let Join { link, child } = add_under(d, holder, path, value)?;
        self.slots.link_at(parent, link.on, link.pointer, true);
        self.slots.put_at(slot, child);
        Ok(Answer::AddM)
    }

    /// Evicts the record in a slot into its parent, which keeps its digest.
    #[tactic(auto, using(crate::proofs::SlotLemmas::slot_view))]
    pub(crate) fn evict_m<'a, D: Digests>(
        &mut self,
        d: &D,
        slot: u16,
        parent: u16,
    ) -> Result<Answer<'a>, Refusal>
        ensures follows { Follows result self.old self.new
            (answered (D.functions d.now).lanes (evict_m (D.functions d.now).digest self.old slot parent)) }
        ensures clock { IfOk result (ClockMoves self.old.clock self.new.clock) }
    {
        let Some(child) = self.slots.at(slot) else {
            return Err(Refusal::SlotEmpty);
        };
        if is_root(&child.path) {
            return Err(Refusal::IsRoot);
        }
        let Some(holder) = self.slots.at(parent) else {
            return Err(Refusal::SlotEmpty);
        };
        let link = evict_under(d, holder, child)?;
        self.slots.link_at(parent, link.on, link.pointer, false);
        self.slots.leave_at(slot);
        Ok(Answer::EvictM)
    }
}
