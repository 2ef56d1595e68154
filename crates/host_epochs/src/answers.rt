//! What a try answers, and a making for which there was no memory.
use host_shard::Content;

/// What comes of trying to take a place.
#[derive(Drop)]
pub enum Taking {
    /// The place's content.
    Taken(Content),
    /// The place's word was found held.
    Busy,
}

/// There was no memory for a table. The contents come back.
#[derive(Drop)]
pub struct Refused {
    pub contents: Vec<Content>,
}
