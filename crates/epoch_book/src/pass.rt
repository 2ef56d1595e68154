//! The right of one verifier to hand its part in.
ghost use Rattle.std.specs.Prelude.{◌≡◌, ◌<◌, ◌^◌, [], ◌∷◌};
ghost use Rattle.std.specs.Option.{ForSome};
ghost use Rattle.epoch_book.specs.Words.{account_of};
ghost use Rattle.epoch_book.specs.Numbers.{row_of};

use crate::rule::Account;
use multiset_sum::Part;

/// The right to make steps on the table of a book, with an account of those made. It has no bytes.
pub type Ticket = atomic_table::Seat<(), Account>;

/// The pass of one verifier: its number, and its part, once that is handed in.
#[derive(Drop)]
pub struct Pass {
    pub(crate) number: u16,
    pub(crate) part: Option<Part>,
    pub(crate) ticket: Ticket,
    ghost added: { ticket.me ≡ (account_of 1 (row_of part ∷ []), []) },
    ghost fits: { ForSome part (λ p. (p.verifier ≡ number) × (p.added.count < 2 ^ 25) × (p.evicted.count < 2 ^ 25)) },
}

impl Pass {
    ghost use Rattle.epoch_book.specs.Passes.{number_of, part_of};

    /// The pass of a verifier that has handed nothing in.
    pub(crate) fn new(number: u16, ticket: Ticket) -> Pass
        requires dealt { ticket.me ≡ (account_of 1 ([] ∷ []), []) }
        ensures pass { (result.number ≡ number) × (result.part ≡ None) × (result.ticket.table_id ≡ ticket.table_id) }
    {
        Pass {
            number,
            part: None,
            ticket,
        }
    }

    /// Its ticket, with what was added.
    pub(crate) fn into_ticket(self) -> Ticket
        ensures ticket { (result.table_id ≡ self.ticket.table_id) × (result.me ≡ (account_of 1 (row_of self.part ∷ []), [])) }
    {
        let Pass {
            number: _,
            part: _,
            ticket,
        } = self;
        ticket
    }

    /// The verifier's number.
    pub fn number(&self) -> u16
        ensures value { result ≡ number_of self.now }
    {
        self.number
    }

    /// The part that was handed in, if it was.
    pub fn part(&self) -> Option<Part>
        ensures value { result ≡ part_of self.now }
    {
        self.part
    }
}
