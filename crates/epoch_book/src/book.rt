//! A book of one epoch: it is opened, and parts are handed in.
ghost use Rattle.std.specs.Prelude.{◌≡◌, ◌≤◌};

use crate::numbers::{WORDS, numbers_of};
use crate::pass::{Pass, Ticket};
use crate::rule::{Account, Adds, Deals, SumsOfRows};
use atomic_table::Table;
use base_words::Memory;
use multiset_sum::Part;
use std::alloc::Global;

/// Words to which the verifiers of an epoch add their parts, each from a thread of its own.
#[derive(Drop)]
pub struct EpochBook {
    pub(crate) table: Table<(), Account, u16, SumsOfRows, Global>,
    ghost sized: { (table.shared.table_id.words ≡ 18) × (table.shared.table_id.slots ≡ 0) × (1 ≤ table.shared.key) × (table.shared.key ≤ 64) },
}

impl EpochBook {
    ghost use Rattle.std.specs.Prelude.{◌≡◌, ℕ, ◌<◌, ◌≤◌, ◌^◌, [], ◌∷◌, All, IfOk, slice_index};
    ghost use Rattle.epoch_book.specs.Words.{account_of};
    ghost use Rattle.epoch_book.specs.Passes.{id_of, verifiers_of, IsPassOf, AreAllPassesOf, number_of, part_of};

    /// A book for so many verifiers, and the pass of each, in their order. It takes all its memory here.
    pub fn new(alloc: Global, verifiers: u16) -> Result<(EpochBook, Vec<Pass>), Memory>
        requires range { (1 ≤ verifiers) × (verifiers ≤ 64) }
        ensures passes { IfOk result (λ made. (verifiers_of made.0 ≡ verifiers)
            × AreAllPassesOf made.0 made.1.items) }
        ensures empty { IfOk result (λ made. All (λ pass. part_of pass ≡ None) made.1.items) }
    {
        let (table, dealer) = Table::of_words(alloc, &[0; WORDS], &verifiers)?;
        let book = EpochBook { table };
        let passes = book.deal(alloc, dealer, verifiers)?;
        Ok((book, passes))
    }

    // Deals a pass to each verifier, from the ticket that stands for all.
    fn deal(&self, alloc: Global, dealer: Ticket, verifiers: u16) -> Result<Vec<Pass>, Memory>
        requires dealer { (dealer.table_id ≡ id_of self.now) × (dealer.me ≡ (account_of verifiers [], [])) }
        requires all { verifiers_of self.now ≡ verifiers }
        ensures passes { IfOk result (λ passes. AreAllPassesOf self.now passes.items) }
        ensures empty { IfOk result (λ passes. All (λ pass. part_of pass ≡ None) passes.items) }
    {
        let mut dealer = dealer;
        let mut passes = Vec::with_capacity(alloc, usize::from(verifiers))?;
        for number in 0..verifiers {
            let ticket = self.table.shared.split_seat::<Deals>(&mut dealer);
            passes.push(Pass::new(number, ticket))?;
        }
        Ok(passes)
    }

    /// Adds a verifier's part to the words, by one atomic step for each, and notes it in the verifier's pass.
    pub fn hand_in(&self, pass: &mut Pass, part: Part)
        requires book { IsPassOf self.now pass.old }
        requires verifier { part.verifier ≡ number_of pass.old }
        requires none { part_of pass.old ≡ None }
        requires counts { (part.added.count < 2 ^ 25) × (part.evicted.count < 2 ^ 25) }
        ensures book { IsPassOf self.now pass.new }
        ensures number { number_of pass.new ≡ number_of pass.old }
        ensures part { part_of pass.new ≡ Some part }
    {
        self.add(&mut pass.ticket, &numbers_of(&part));
        pass.part = Some(part);
    }

    // Adds a number to each word, with the ticket of a pass that has added none.
    fn add(&self, ticket: &mut Ticket, numbers: &[u64; WORDS])
        requires ticket { (ticket.old.table_id ≡ id_of self.now) × (ticket.old.me ≡ (account_of 1 ([] ∷ []), [])) }
        requires small { (word : ℕ) → slice_index numbers.now word ≤ 2 ^ 57 }
        ensures ticket { ticket.new.table_id ≡ ticket.old.table_id }
        ensures added { ticket.new.me ≡ (account_of 1 (numbers.now ∷ []), []) }
    {
        for word in 0..WORDS {
            self.table
                .shared
                .fetch_add::<Adds>(ticket, word, numbers[word]);
        }
    }
}
