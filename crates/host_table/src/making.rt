//! How a table is made, and closed.
ghost use Rattle.std.specs.Prelude.{◌≡◌, map, All, IfOk, IfErr};
ghost use Rattle.host_table.specs.Calls.{AreAll, IsNew, told_by};
ghost use Rattle.host_table.specs.Phase.{IsPhase};
ghost use Rattle.host_table.specs.Table.{table, terms};
ghost use Rattle.host_table.specs.Terms.{IsMaking};

use crate::records::Records;
use host_epochs::{Epochs, Hand, Refused};
use host_shard::Content;
use lamport_clocks::Header;
use record_hash::Digests;
use std::alloc::Global;

impl<D: Digests> Records<D> {
    /// A table of these contents, and a hand for each of so many workers, in the order of their numbers. Where `absent`, a get
    /// of a key that has no record makes none. For want of memory the contents come back.
    pub fn make(
        alloc: Global,
        d: &D,
        header: &Header,
        contents: Vec<Content>,
        workers: u16,
        absent: bool,
    ) -> Result<(Records<D>, Vec<Hand>), Refused>
        requires making { IsMaking header.now workers contents.items }
        ensures terms { IfOk result (λ made. terms D.functions made.0 ≡ record {
          digest = (D.functions d.now).digest;
          header = header.now;
          workers = workers;
          absent = absent;
          contents = contents.items;
        }) }
        ensures hands { IfOk result (λ made. AreAll (table made.0) workers made.1.items) }
        ensures new { IfOk result (λ made. All IsNew made.1.items) }
        ensures back { IfErr result (λ refused. refused.contents.items ≡ contents.items) }
    {
        let (epochs, hands) = Epochs::make(alloc, d, header, contents, workers, 0, absent)?;
        Ok((Records { epochs, absent }, hands))
    }

    /// The contents, in the order of their places, once no worker holds one. It takes no memory.
    pub fn close(self, hands: Vec<Hand>) -> Vec<Content>
        requires all { AreAll (table self) (terms D.functions self).workers hands.items }
        ensures phase { IsPhase (terms D.functions self) result.items (map told_by hands.items) }
    {
        let Records { epochs, .. } = self;
        epochs.close(hands)
    }
}
