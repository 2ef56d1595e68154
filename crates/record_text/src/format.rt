//! Of which tree the paths of a bundle are, and how long its data values may be.
ghost use Rattle.std.specs.Prelude.{◌≡◌};
ghost use Rattle.record_text.specs.Tree.{wide_of};
ghost use Rattle.record_text.specs.Longest.{longest_of};

use lamport_clocks::Header;

/// The tree of a bundle with this header: whether its keys have 128 bits.
pub fn wide_of(header: &Header) -> bool
    ensures value { result ≡ wide_of header.now }
{
    header.bits == 128
}

/// The most bytes of a data value in a bundle with this header.
pub fn longest_of(header: &Header) -> u8
    ensures value { result ≡ longest_of header.now }
{
    if header.version < 3 { 64 } else { 255 }
}
