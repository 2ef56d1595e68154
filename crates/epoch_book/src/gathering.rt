//! A book is settled: its passes come together again, and its words are read.
ghost use Rattle.std.specs.Prelude.{◌≡◌, ◌≤◌, ℕ, ◌<◌, [], length, vec_len, slice_index, take, drop, All};
ghost use Rattle.std.specs.Str.{bytes_eq};
ghost use Rattle.core.specs.Mem.Slots.{slots_items, slots_len, IsFull};
ghost use mathlib.Core.Option.{some};
ghost use lib.ListN.{get_elem?};
ghost use Rattle.epoch_gather.specs.Parts.{total};
ghost use Rattle.epoch_gather.specs.Verdict.{verdict_of};
ghost use Rattle.epoch_book.specs.Words.{account_of, column};
ghost use Rattle.epoch_book.specs.Passes.{id_of, verifiers_of, IsPassOf, AreAllPassesOf, parts_of, rows_of};
ghost use Rattle.epoch_book.specs.Settled.{first_without, settled};

use crate::book::EpochBook;
use crate::numbers::WORDS;
use crate::pass::{Pass, Ticket};
use crate::rule::Gathers;
use atomic_table::Closed;
use epoch_gather::Verdict;
use multiset_sum::Sum;
use std::alloc::Global;

// How many words a sum has.
const HALF: usize = 9;

impl EpochBook {
    /// The verdict on the epoch, once all passes of the book have come together: the lowest verifier that has handed
    /// nothing in, or else whether the words of what was added are those of what was evicted. The sums that differ are
    /// those of all parts together, which are what the words say.
    pub fn settle(self, passes: Vec<Pass>) -> Verdict
        requires all { AreAllPassesOf self passes.items }
        ensures verdict { result ≡ settled passes.items }
        ensures epoch { (epoch : ℕ) → All (λ part. part.epoch ≡ epoch) (parts_of passes.items)
            → result ≡ verdict_of (verifiers_of self) epoch (parts_of passes.items) }
    {
        if let Some(verifier) = first_without(&passes) {
            return Verdict::Missing(verifier);
        }
        let (added, evicted) = joined(&passes);
        let totals = self.totals(passes);
        if halves_agree(&totals) {
            Verdict::Balanced
        } else {
            Verdict::Unbalanced(added, evicted)
        }
    }

    // The words of the book: each is the sum of what its passes have added to it.
    fn totals(self, passes: Vec<Pass>) -> [u64; WORDS]
        requires all { AreAllPassesOf self passes.items }
        ensures count { length result ≡ 18 }
        ensures totals { (word : ℕ) → word < 18 → slice_index result word ≡ column word (rows_of passes.items) }
    {
        let ticket = self.gather(passes);
        let closed = self.table.close_with(ticket);
        let totals = words_of(&closed);
        closed.free();
        totals
    }

    // One ticket that stands for all these passes.
    fn gather(&self, mut passes: Vec<Pass>) -> Ticket
        requires some { 0 < vec_len passes }
        requires book { All (λ pass. IsPassOf self.now pass) passes.items }
        ensures book { result.table_id ≡ id_of self.now }
        ensures all { result.me ≡ (account_of (length passes.items) (rows_of passes.items), []) }
    {
        let Some(last) = passes.pop() else {
            unreachable!()
        };
        let mut ticket = last.into_ticket();
        while let Some(pass) = passes.pop() {
            self.table
                .shared
                .join_seat::<Gathers>(&mut ticket, pass.into_ticket());
        }
        ticket
    }
}

// The number of the first pass that has no part.
fn first_without(passes: &[Pass]) -> Option<u16>
    ensures first { result ≡ first_without passes.now }
{
    let pass = passes.iter().find(|pass| pass.part.is_none())?;
    Some(pass.number)
}

// The sums of what was added and of what was evicted, over all parts that these passes have.
fn joined(passes: &[Pass]) -> (Sum, Sum)
    requires few { length passes.now ≤ 64 }
    ensures added { result.0 ≡ total (λ part. part.added) (parts_of passes.now) }
    ensures evicted { result.1 ≡ total (λ part. part.evicted) (parts_of passes.now) }
{
    let mut added = Sum::zero();
    let mut evicted = Sum::zero();
    for pass in passes {
        if let Some(part) = &pass.part {
            added = added.join(&part.added);
            evicted = evicted.join(&part.evicted);
        }
    }
    (added, evicted)
}

// Whether the words of what was added are those of what was evicted.
fn halves_agree(words: &[u64; WORDS]) -> bool
    ensures value { result ≡ bytes_eq (take 9 words.now) (drop 9 words.now) }
{
    let (added, evicted) = words.split_at(HALF);
    added == evicted
}

// The words of a closed table.
fn words_of(closed: &Closed<(), Global>) -> [u64; WORDS]
    requires words { (slots_len closed.now.words ≡ 18) × IsFull closed.now.words }
    ensures count { length result ≡ 18 }
    ensures words { (word : ℕ) → word < 18
        → get_elem? (slots_items closed.now.words) word ≡ some (slice_index result word) }
{
    let mut words = [0; WORDS];
    for word in 0..WORDS {
        words[word] = closed.word(word);
    }
    words
}
