//! A table of one place for one worker: its making, and an attempt to serve a put in it.
ghost use Rattle.std.specs.Prelude.{◌≡◌, IfOk, IsTrue};
ghost use Rattle.lamport_clocks.specs.Clock.{opening_reading};
ghost use Rattle.host_shard.specs.Shown.{shown_content};
ghost use Rattle.host_table.specs.Table.{table, terms};
ghost use Rattle.starved_tests.specs.Seated.{CanAttempt, IsStart, IsWaiting, table_header};

use crate::outcome::{Fault, Outcome};
use crate::plans::FORK;
use crate::same::{are_same, are_written_as};
use crate::seat::{END, Seat, owns, put_of};
use bundle_rows::log_of;
use host_plan::Plan;
use host_shard::Content;
use host_table::{Attempt, Hand, Records, Refused};
use lamport_clocks::{Clock, Header, Stamp};
use record_hash::{Digests, ToyDigests};
use record_text::Request;
use std::alloc::Global;

/// A table is made of a shard with a record, and closed.
pub fn make(alloc: Global) -> Result<Outcome, Fault> {
    make_once(alloc, &ToyDigests)
}

/// The key beside the only one is put in a table.
pub fn attempt(alloc: Global) -> Result<Outcome, Fault> {
    let wanted = log_of(alloc, FORK.trim())?;
    attempt_once(alloc, &ToyDigests, &wanted)
}

// The numbers of the table's bundle.
fn header() -> Header
    ensures value { result ≡ table_header }
{
    Header::by_path(1, 128, 0, END)
}

// The shard with a record, if a table may be made of it in which key 1 is put.
fn one_put(alloc: Global) -> Result<Vec<Content>, Fault>
    ensures start { IfOk result (λ contents. IsStart contents.items) }
{
    let seat = Seat::after(alloc, &[(0, b'a')])?;
    if !owns(&seat.cold, 1) || !is_stamped(&seat.cold) {
        return Err(Fault::Amiss("another shard"));
    }
    let mut contents = Vec::with_capacity(alloc, 1)?;
    contents.push(seat.cold)?;
    Ok(contents)
}

// Whether a content waits with an element of epoch 0 that verifier 0 evicted.
fn is_stamped(content: &Content) -> bool
    ensures stamped { IsTrue result → IsWaiting (shown_content content.now) }
{
    match content.pending() {
        Some(element) => {
            element.verifier == 0 && element.stamp.epoch == 0 && element.stamp.counter <= END
        }
        None => false,
    }
}

// Makes a table once, or twice where the first time memory was wanting.
fn make_once<D: Digests>(alloc: Global, d: &D) -> Result<Outcome, Fault> {
    let twin = one_put(alloc)?;
    let contents = one_put(alloc)?;
    match Records::make(alloc, d, &header(), contents, 1, false) {
        Ok((records, hands)) => look_at(&records.close(hands), &twin, Outcome::Made),
        Err(Refused { contents }) => make_again(alloc, d, contents, &twin),
    }
}

// The same table, for which memory was wanting, where the contents are as before.
fn make_again<D: Digests>(
    alloc: Global,
    d: &D,
    contents: Vec<Content>,
    twin: &[Content],
) -> Result<Outcome, Fault>
    requires start { IsStart contents.items }
{
    look_at(&contents, twin, Outcome::MadeAgain)?;
    match Records::make(alloc, d, &header(), contents, 1, false) {
        Ok((records, hands)) => look_at(&records.close(hands), twin, Outcome::MadeAgain),
        Err(_) => Err(Fault::Amiss("no table when asked again")),
    }
}

// How it was made, where both are the same content.
fn look_at(contents: &[Content], twin: &[Content], outcome: Outcome) -> Result<Outcome, Fault> {
    if contents.len() != 1 || twin.len() != 1 || !are_same(&contents[0], &twin[0]) {
        return Err(Fault::Amiss("other contents than before"));
    }
    Ok(outcome)
}

// Makes a table, and attempts to put key 1 once, or twice where the first time memory was wanting.
fn attempt_once<D: Digests>(alloc: Global, d: &D, wanted: &[u8]) -> Result<Outcome, Fault> {
    let request = put_of(1, b'b')?;
    let contents = one_put(alloc)?;
    let Ok((records, hands)) = Records::make(alloc, d, &header(), contents, 1, false) else {
        return Err(Fault::Memory);
    };
    let mut hands = hands;
    let Some(hand) = hands.pop() else {
        return Err(Fault::Amiss("no hand"));
    };
    attempt_with(alloc, d, &records, hand, &request, wanted)
}

fn attempt_with<D: Digests>(
    alloc: Global,
    d: &D,
    records: &Records<D>,
    hand: Hand,
    request: &Request,
    wanted: &[u8],
) -> Result<Outcome, Fault>
    requires digests { (D.functions d.now).digest ≡ (terms D.functions records.now).digest }
    requires can { CanAttempt (terms D.functions records.now) (table records.now) hand (opening_reading 0 16777215) request.now.key }
{
    let mut hand = hand;
    let mut clock = Clock::new(0, END);
    match records.attempt(alloc, d, &mut hand, 0, request, &mut clock) {
        Attempt::Served(plan) => look(&plan, &clock, wanted, Outcome::Made),
        Attempt::Memory => {
            if clock != Clock::new(0, END) {
                return Err(Fault::Amiss("another clock than before"));
            }
            match records.attempt(alloc, d, &mut hand, 0, request, &mut clock) {
                Attempt::Served(plan) => look(&plan, &clock, wanted, Outcome::MadeAgain),
                _ => Err(Fault::Amiss("not served when asked again")),
            }
        }
        _ => Err(Fault::Amiss("neither served nor out of memory")),
    }
}

// How it was made, where the plan is this one, and the clock went to its stamp.
fn look(plan: &Plan, clock: &Clock, wanted: &[u8], outcome: Outcome) -> Result<Outcome, Fault> {
    let stamp = Stamp {
        epoch: 0,
        counter: 6,
    };
    if !are_written_as(plan.commands.as_slice(), wanted) || clock.at() != stamp {
        return Err(Fault::Amiss("another plan"));
    }
    Ok(outcome)
}
