//! A log as a host writes it: bytes that grow by the texts of commands, and that become frames of a bundle.
//!
//! The crate stands on `bundle_frames` for a frame's text. Begin with `LogBuffer` in `buffer.rt`, then `frames` in `framing.rt`, beside `specs/Frames.antt`, which says into which frames bytes are
//! cut. `laws.rt` says that the frames of pieces of logs are read back as these logs.
#![tactic(auto)]

mod buffer;
mod framing;
mod laws;

pub use buffer::LogBuffer;
pub use framing::frames;
pub use laws::{bundles_hold_the_logs, frames_join_to_the_bytes};
