//! How a worker takes a place and gives it back.
ghost use Rattle.std.specs.Prelude.{◌≡◌, ◌≢◌, ◌<◌, [], ◌∷◌};
ghost use Rattle.host_epochs.specs.Calls.{Gives, IsAfter, IsEntryOf, Loses, MayGive, MayNote, Tries, Wins, asked};
ghost use Rattle.host_epochs.specs.declared.told.Entry.{Entry};
ghost use Rattle.host_epochs.specs.Hands.{Holds, HoldsContent, IsFree, content, row_of};
ghost use Rattle.host_epochs.specs.Made.{terms_of};
ghost use Rattle.host_epochs.specs.Plays.{given_back, row_with_entry};
ghost use Rattle.host_epochs.specs.Table.{table, terms};
ghost use Rattle.host_epochs.specs.Terms.{IsMaking, clock_at, place_count};
ghost use Rattle.host_epochs.specs.Told.{IsDone, IsSame};

use crate::answers::Taking;
use crate::epochs::Epochs;
use crate::hand::Hand;
use crate::making::Board;
use crate::plays::{Free, Note, Told, Try};
use host_shard::Content;
use lamport_clocks::Stamp;
use record_hash::Digests;
use record_text::Request;
use std::marker::Brand;

// The word of a place that nobody holds. One that is held has the number of its worker, and 1.
const FREE: u64 = 0;

impl<D: Digests> Epochs<D> {
    /// Tries once to take a place. Busy comes only where its word was found held, and then nothing changes but the hand's
    /// losses. It waits for nobody and takes no memory.
    pub fn try_take(&self, hand: &mut Hand, place: usize) -> Taking
        requires place { place < place_count (terms D.functions self.now) }
        requires free { IsFree (table self.now) hand.old }
        ensures tries { Tries (terms D.functions self.now) (table self.now) hand.old place result hand.new }
    {
        if try_word::<D, Brand>(&self.board, hand, place) != FREE {
            return Taking::Busy;
        }
        let content = self
            .board
            .shared
            .exchange(&mut hand.seat, place, Content::Vacant);
        Taking::Taken(content)
    }

    /// Gives a place back: with the content that was taken, or with what a request makes of it that was served, or a scan,
    /// from the clock that stood so. It waits for nobody and takes no memory.
    pub fn give(
        &self,
        hand: &mut Hand,
        place: usize,
        content: Content,
        work: Option<(Stamp, Option<&Request>)>,
    )
        requires place { place < place_count (terms D.functions self.now) }
        requires holds { Holds (table self.now) hand.old place }
        requires may { MayGive (terms D.functions self.now) hand.old place content work }
        ensures free { IsFree (table self.now) hand.new }
        ensures gives { Gives (terms D.functions self.now) hand.old place content work.entry hand.new }
    {
        if let Some((clock, request)) = work {
            note::<D, Brand>(&self.board, hand, place, clock, request, &content);
        }
        put_back(&self.board, hand, place, content);
    }
}

// Tries a place's word, and answers what was found there.
fn try_word<D: Digests, N: Told>(board: &Board<D>, hand: &mut Hand, place: usize) -> u64
    requires terms { N.terms ≡ terms_of D.functions board.now.shared.key }
    requires making { IsMaking board.now.shared.key.header board.now.shared.key.workers board.now.shared.key.contents.value.items }
    requires place { place < place_count (terms_of D.functions board.now.shared.key) }
    requires word { place < board.now.shared.table_id.words }
    requires free { IsFree board.now.shared.table_id hand.old }
    ensures won { result ≡ 0 → Wins (terms_of D.functions board.now.shared.key) board.now.shared.table_id hand.old place hand.new }
    ensures lost { result ≢ 0 → Loses hand.old hand.new place × IsFree board.now.shared.table_id hand.new }
{
    let own = u64::from(hand.number) + 1;
    board
        .shared
        .compare_exchange::<Try<N>>(&mut hand.seat, place, FREE, own)
}

// Notes an entry: this request was served at the place that is held, or the place was scanned, from this clock, and that made
// this content.
fn note<D: Digests, N: Told>(
    board: &Board<D>,
    hand: &mut Hand,
    place: usize,
    clock: Stamp,
    request: Option<&Request>,
    after: &Content,
)
    requires terms { N.terms ≡ terms_of D.functions board.now.shared.key }
    requires draft { N.draft ≡ record {
      clock = clock_at (terms_of D.functions board.now.shared.key) clock;
      request = asked request;
      after = after.now;
    } }
    requires word { place < board.now.shared.table_id.words }
    requires holds { Holds board.now.shared.table_id hand.old place }
    requires may { MayNote (terms_of D.functions board.now.shared.key) hand.old place
        (clock_at (terms_of D.functions board.now.shared.key) clock) (asked request) after.now }
    ensures holds { Holds board.now.shared.table_id hand.new place × (content hand.new ≡ after.now) }
    ensures entry { (entry : Entry) × IsEntryOf hand.old place
        (clock_at (terms_of D.functions board.now.shared.key) clock) (asked request.entry) after.now entry
        × IsDone (terms_of D.functions board.now.shared.key) entry
        × IsAfter hand.old hand.new (row_with_entry (row_of hand.old) entry) [] [] [] }
{
    board.shared.load::<Note<N>>(&mut hand.seat, place);
}

// Puts a content into the cell of the place that is held, and frees its word.
fn put_back<D: Digests>(board: &Board<D>, hand: &mut Hand, place: usize, given: Content)
    requires word { place < board.now.shared.table_id.words }
    requires holds { Holds board.now.shared.table_id hand.old place }
    requires same { IsSame (content hand.old) given }
    ensures free { IsFree board.now.shared.table_id hand.new }
    ensures after { IsAfter hand.old hand.new (row_of hand.old) [] (given_back place given ∷ []) [] }
{
    board.shared.exchange(&mut hand.seat, place, given);
    board.shared.store::<Free>(&mut hand.seat, place, FREE);
}
