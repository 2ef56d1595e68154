//! What goes through a lane.
use host_log::LogBuffer;

/// A buffer of a worker's log, on its way to the verifier.
#[derive(Debug, Drop)]
pub struct Parcel {
    /// Which of its worker's buffers it is.
    pub number: u64,
    pub buffer: LogBuffer,
    /// Whether it is its worker's last of the round.
    pub last: bool,
}
