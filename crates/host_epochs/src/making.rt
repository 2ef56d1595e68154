//! What a table of records is made with, and its rule.
use crate::views::View;
use atomic_table::{Seat, Table, TableRule};
use host_shard::Content;
use lamport_clocks::Header;
use record_hash::Digests;
use std::alloc::Global;
use std::snapshot::Snapshot;

/// What the rule is told once: the digests, the bundle's numbers, the contents at the making, how many workers there are,
/// whether a get of a key that has no record makes none, and how many epochs may be entered behind that of the making.
#[derive(Drop)]
pub struct Making<D> {
    pub digests: Snapshot<D>,
    pub header: Header,
    pub contents: Snapshot<Vec<Content>>,
    pub workers: u16,
    pub absent: bool,
    pub more: u64,
}

/// The rule that holds between any two steps: `specs/Rule.antt` says it.
pub struct Law;

impl<D: Digests> TableRule<Content, View, Making<D>> for Law {
    ghost use Rattle.std.specs.Prelude.{[]};
    ghost use Rattle.host_epochs.specs.Made.{terms_of, first_rows};
    ghost use Rattle.host_epochs.specs.Rule.{IsKept};
    ghost use Rattle.host_epochs.specs.Plays.{rack};

    ghost holds = { λ making. IsKept (terms_of D.functions making) };

    ghost first = { λ making. rack 0 (first_rows making.workers) };
}

pub(crate) type Board<D> = Table<Content, View, Making<D>, Law, Global>;

pub(crate) type Place = Seat<Content, View>;
