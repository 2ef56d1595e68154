//! What was read of a bundle.
ghost use Rattle.std.specs.Prelude.{◌≡◌, vec_len};
ghost use Rattle.std.specs.Option.{ForSome};
ghost use Rattle.lamport_clocks.specs.Header.{IsHeader};
ghost use Rattle.bundle_report.specs.Logs.{log_count};
ghost use Rattle.check_core.specs.InRange.{header_props};

use lamport_clocks::Header;

/// The header of a bundle and the logs of its verifiers, as far as they were read.
#[derive(Drop)]
pub struct Intake {
    /// The header, once it was read and if it is good.
    pub header: Option<Header>,
    /// The joined bodies of the frames of each verifier: one log for each, none before the header.
    pub logs: Vec<Vec<u8>>,
    /// The offset of the header or frame that is bad or cut, if one is.
    pub bad: Option<u64>,
    ghost in_range: { ForSome header IsHeader } by { Prim.hlevel header_props },
    ghost count: { vec_len logs ≡ log_count header },
}
