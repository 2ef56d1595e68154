//! Tables of records with epochs.
ghost use Rattle.std.specs.Prelude.{◌≡◌, ◌+◌, ◌≤◌, length, vec_len, vec_capacity};
ghost use Rattle.host_epochs.specs.Terms.{IsMaking};

use crate::making::Board;
use host_shard::Content;
use record_hash::Digests;

/// The contents of the host's places, which workers take and give back, each by its hand, and the epochs that the workers enter
/// one after another.
#[derive(Drop)]
pub struct Epochs<D: Digests> {
    pub(crate) board: Board<D>,
    /// Where the contents are gathered at the end.
    pub(crate) room: Vec<Content>,
    // How many places there are: their words stand before the others.
    pub(crate) places: usize,
    ghost words: { board.shared.table_id.words ≡ 2 + (length board.shared.key.contents.value.items + board.shared.key.workers) },
    ghost slots: { board.shared.table_id.slots ≡ length board.shared.key.contents.value.items },
    ghost making: { IsMaking board.shared.key.header board.shared.key.workers board.shared.key.contents.value.items },
    ghost counted: { places ≡ length board.shared.key.contents.value.items },
    ghost empty: { vec_len room ≡ 0 },
    ghost roomy: { length board.shared.key.contents.value.items ≤ vec_capacity room },
}
