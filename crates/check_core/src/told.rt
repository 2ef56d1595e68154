//! What is told of each certified epoch, as it is asked.
ghost use Rattle.std.specs.Prelude.{◌≡◌};
ghost use Rattle.certified_epochs.specs.Telling.{text_by};
ghost use Rattle.check_core.specs.Told.{told_text};

use certified_epochs::Telling;
use lamport_clocks::Header;
use record_hash::Digests;

/// What is told of each certified epoch.
#[derive(Drop)]
pub enum Told {
    /// Its lines, with receipts or without.
    Lines { receipts: bool },
    /// Nothing.
    Nothing,
}

impl Told {
    /// How the epochs of a bundle with this header are told.
    pub(crate) fn telling<'a, D: Digests>(&self, digests: &'a D, header: &Header) -> Telling<'a, D>
        ensures text { text_by D.functions result ≡ told_text self.now (D.functions digests.now) header.now }
    {
        match self {
            Told::Lines { receipts } => Telling::new(*receipts, digests, header),
            Told::Nothing => Telling::Nothing,
        }
    }
}
