//! What a seat of the table knows. No value of these types is made: they exist in proofs alone.
use crate::told::{Entry, Loss, Reached, Stop};
use host_shard::Content;
use std::collections::LinkedList;

/// What a worker has taken.
pub enum Held {
    Idle,
    /// A place, the content that it has, and what was done there since the making.
    Has(u64, Content, LinkedList<Entry>),
}

/// What a worker tells: what it did, where it stopped, how many epochs it entered and with how many it is through, and whether
/// it read that a worker stopped.
pub struct Row {
    pub list: LinkedList<Entry>,
    pub stop: Option<Stop>,
    pub entered: u64,
    pub done: u64,
    pub warned: bool,
}

/// A worker: its number, what it holds, what it tells, what it found held, with which epochs it gave places back, and how far
/// it found workers.
pub struct Desk {
    pub number: u64,
    pub held: Held,
    pub row: Row,
    pub losses: LinkedList<Loss>,
    pub left: LinkedList<Reached>,
    pub seen: LinkedList<Reached>,
}

/// The rows of all workers from a number on.
pub struct Rack {
    pub from: u64,
    pub rows: LinkedList<Row>,
}

/// What a seat knows.
pub enum View {
    Spent,
    Working(Desk),
    Keeping(Rack),
}
