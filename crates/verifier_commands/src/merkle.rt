//! The Merkle commands, which come and go by digests: the records that the sparse Merkle tree protects.
ghost use Rattle.std.specs.Prelude.{◌≡◌, ◌≢◌, false, IsSome, IfSome, IfOk};
ghost use Rattle.base_words.specs.Follows.{Follows};
ghost use Rattle.verifier_cache.specs.Entry.{linked};
ghost use Rattle.verifier_cache.specs.Cache.{entry_of, without, replaced};
ghost use Rattle.verifier_commands.specs.Transition.{add_m, evict_m};
ghost use Rattle.verifier_commands.specs.Answer.{answered, ClockMoves};

use crate::answer::Answer;
use crate::changes::{Join, Link, add_under, evict_under};
use crate::state::{State, is_root};
use record_hash::Digests;
use record_text::{Refusal, Value};
use tree_keys::Path;
use verifier_cache::{Cache, Hint};

impl State {
    /// Adds a record under its parent, whose digest vouches for it.
    pub(crate) fn add_m<'a, D: Digests>(
        &mut self,
        d: &D,
        path: &Path,
        value: &Value,
        parent: &Path,
    ) -> Result<Answer<'a>, Refusal>
        ensures follows { Follows result self.old self.new
            (answered (D.functions d.now).lanes (add_m (D.functions d.now).digest self.old path.now value.now parent.now)) }
        ensures clock { IfOk result (ClockMoves self.old.clock self.new.clock) }
    {
        if is_root(path) {
            return Err(Refusal::IsRoot);
        }
        let own = self.cache.hint(path);
        if self.cache.entry_near(path, own).is_some() {
            return Err(Refusal::AlreadyCached);
        }
        if self.cache.is_full() {
            return Err(Refusal::CacheFull);
        }
        let holders = self.cache.hint(parent);
        let Some(holder) = self.cache.entry_near(parent, holders) else {
            return Err(Refusal::ParentNotCached);
        };
        let Join { link, child } = add_under(d, holder, path, value)?;
        self.cache
            .link_near(parent, holders, link.on, link.pointer, true);
        self.cache.insert_near(child, own);
        Ok(Answer::AddM)
    }

    /// Evicts a record into its parent, which keeps its digest.
    pub(crate) fn evict_m<'a, D: Digests>(
        &mut self,
        d: &D,
        path: &Path,
        parent: &Path,
    ) -> Result<Answer<'a>, Refusal>
        ensures follows { Follows result self.old self.new
            (answered (D.functions d.now).lanes (evict_m (D.functions d.now).digest self.old path.now parent.now)) }
        ensures clock { IfOk result (ClockMoves self.old.clock self.new.clock) }
    {
        if is_root(path) {
            return Err(Refusal::IsRoot);
        }
        let own = self.cache.hint(path);
        let Some(child) = self.cache.entry_near(path, own) else {
            return Err(Refusal::NotCached);
        };
        let holders = self.cache.hint(parent);
        let Some(holder) = self.cache.entry_near(parent, holders) else {
            return Err(Refusal::ParentNotCached);
        };
        let link = evict_under(d, holder, child)?;
        leave(&mut self.cache, path, own, parent, holders, &link);
        Ok(Answer::EvictM)
    }
}

// Writes what the parent of a path gets as that leaves, and takes the path's entry out.
pub(crate) fn leave(
    cache: &mut Cache,
    path: &Path,
    own: Hint,
    parent: &Path,
    holders: Hint,
    link: &Link,
)
    requires parent { IsSome (entry_of parent.now cache.old.entries) }
    requires child { IsSome (entry_of path.now cache.old.entries) }
    requires apart { path.now ≢ parent.now }
    ensures cache { IfSome (entry_of parent.now cache.old.entries) (λ holder.
        cache.new ≡ record cache.old { entries = without path.now (replaced (linked holder link.now.on link.now.pointer false) cache.old.entries) }) }
{
    cache.link_near(parent, holders, link.on, link.pointer, false);
    cache.leave_near(path, own);
}
