//! The commands that come and go with a stamp: their records are checked by the sums of an epoch.
ghost use Rattle.std.specs.Prelude.{◌≡◌, IfOk};
ghost use Rattle.base_words.specs.Follows.{Follows};
ghost use Rattle.verifier_commands.specs.Transition.{add_b, evict_b, evict_bm};
ghost use Rattle.verifier_commands.specs.Changes.{is_by_stamp};
ghost use Rattle.verifier_commands.specs.Answer.{answered, ClockMoves};

use crate::answer::Answer;
use crate::changes::defer_under;
use crate::lanes::lanes_of;
use crate::merkle::leave;
use crate::state::{State, clock_refusal, is_root};
use lamport_clocks::Stamp;
use record_hash::Digests;
use record_text::{Refusal, Value};
use tree_keys::Path;
use verifier_cache::{Entry, Hold};

impl State {
    /// Takes back a record that some verifier evicted with this stamp.
    pub(crate) fn add_b<'a, D: Digests>(
        &mut self,
        d: &D,
        verifiers: u16,
        path: &Path,
        value: &Value,
        stamp: Stamp,
        verifier: u16,
    ) -> Result<Answer<'a>, Refusal>
        ensures follows { Follows result self.old self.new (answered (D.functions d.now).lanes (add_b verifiers self.old path.now value.now stamp verifier)) }
        ensures clock { IfOk result (ClockMoves self.old.clock self.new.clock) }
    {
        if is_root(path) {
            return Err(Refusal::IsRoot);
        }
        let own = self.cache.hint(path);
        if self.cache.entry_near(path, own).is_some() {
            return Err(Refusal::AlreadyCached);
        }
        if self.cache.is_full() {
            return Err(Refusal::CacheFull);
        }
        if verifier >= verifiers {
            return Err(Refusal::NoSuchVerifier);
        }
        if let Err(fault) = self.clock.on_add(stamp) {
            return Err(clock_refusal(fault));
        }
        let lanes = lanes_of(d, path, value, stamp, verifier);
        let entry = Entry::new(*path, value.copy(), Hold::B);
        self.cache.insert_near(entry, own);
        Ok(Answer::AddB(stamp.epoch, lanes))
    }

    /// Evicts a record with a stamp.
    pub(crate) fn evict_b<'a, D: Digests>(
        &mut self,
        d: &D,
        number: u16,
        path: &Path,
        stamp: Stamp,
    ) -> Result<Answer<'a>, Refusal>
        ensures follows { Follows result self.old self.new (answered (D.functions d.now).lanes (evict_b number self.old path.now stamp)) }
        ensures clock { IfOk result (ClockMoves self.old.clock self.new.clock) }
    {
        if is_root(path) {
            return Err(Refusal::IsRoot);
        }
        let own = self.cache.hint(path);
        let Some(child) = self.cache.entry_near(path, own) else {
            return Err(Refusal::NotCached);
        };
        if child.has_kid() {
            return Err(Refusal::HasChild);
        }
        if !is_by_stamp(child.hold) {
            return Err(Refusal::WrongHold);
        }
        if let Err(fault) = self.clock.on_evict(stamp) {
            return Err(clock_refusal(fault));
        }
        let lanes = lanes_of(d, path, &child.value, stamp, number);
        self.cache.leave_near(path, own);
        Ok(Answer::EvictB(lanes))
    }

    /// Evicts a record with a stamp, and marks its parent's pointer as deferred.
    pub(crate) fn evict_bm<'a, D: Digests>(
        &mut self,
        d: &D,
        number: u16,
        path: &Path,
        parent: &Path,
        stamp: Stamp,
    ) -> Result<Answer<'a>, Refusal>
        ensures follows { Follows result self.old self.new (answered (D.functions d.now).lanes (evict_bm number self.old path.now parent.now stamp)) }
        ensures clock { IfOk result (ClockMoves self.old.clock self.new.clock) }
    {
        if is_root(path) {
            return Err(Refusal::IsRoot);
        }
        let own = self.cache.hint(path);
        let Some(child) = self.cache.entry_near(path, own) else {
            return Err(Refusal::NotCached);
        };
        let holders = self.cache.hint(parent);
        let Some(holder) = self.cache.entry_near(parent, holders) else {
            return Err(Refusal::ParentNotCached);
        };
        let link = defer_under(holder, child)?;
        if let Err(fault) = self.clock.on_evict(stamp) {
            return Err(clock_refusal(fault));
        }
        let lanes = lanes_of(d, path, &child.value, stamp, number);
        leave(&mut self.cache, path, own, parent, holders, &link);
        Ok(Answer::EvictBM(lanes))
    }
}

// Whether a record came in with a stamp.
pub(crate) fn is_by_stamp(hold: Hold) -> bool
    ensures value { result ≡ is_by_stamp hold }
{
    match hold {
        Hold::B => true,
        _ => false,
    }
}
