//! How the epochs of a report are told.
ghost use Rattle.std.specs.Prelude.{◌≡◌};
ghost use Rattle.bundle_report.specs.Report.{told_by};
ghost use Rattle.certified_epochs.specs.Telling.{text_by};

use lamport_clocks::Header;
use record_hash::Digests;

/// How the epochs of a report are told.
#[derive(Drop)]
pub enum Telling<'a, D> {
    /// Each operation by its line alone.
    Plain,
    /// Each operation with its receipt, and each epoch with the certificate of the epochs from the first up to it.
    Receipts { digests: &'a D, first: u32 },
    /// Not at all.
    Nothing,
}

impl<'a, D: Digests> Telling<'a, D> {
    /// With receipts or without, in the report of a bundle with this header.
    pub fn new(receipts: bool, digests: &'a D, header: &Header) -> Self
        ensures text { text_by D.functions result ≡ told_by receipts (D.functions digests.now) header.now }
    {
        if receipts {
            Telling::Receipts {
                digests,
                first: header.first,
            }
        } else {
            Telling::Plain
        }
    }
}
