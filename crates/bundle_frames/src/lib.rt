//! Bundles: a header and then frames, each of which is a piece of one verifier's log.
//!
//! `Splitter` reads a bundle that comes in pieces, however it is cut, `BundleReader` reads one from a
//! source, and `write_header` and `write_frame` write one. The crate stands on lamport_clocks, for the
//! header's numbers, and on fv_outside, for what is read from and written to.
//!
//! Begin at `splitter`, beside `specs/Bundle.antt`, which says what bytes mean as a bundle, and
//! `specs/Progress.antt`, which says what is left of one. `laws.rt` says that what is written is read back.
#![tactic(auto)]

mod coming;
mod fields;
mod found;
mod frame_buffer;
mod laws;
mod parts;
mod reader;
mod splitter;
mod whole;
mod writers;

pub use coming::Next;
pub use fields::{header_at, header_bytes, header_size};
pub use found::{Fed, Found};
pub use frame_buffer::FrameBuffer;
pub use laws::{
    bundles_are_read_back, bytes_bound_the_frames, frames_are_read_back, headers_are_read_back,
    resumed_readings_go_on, whole_bundles_go_on,
};
pub use reader::{BundleReader, PIECE_BYTES};
pub use splitter::Splitter;
pub use whole::{WholeBundle, WholeFrame, read_pieces};
pub use writers::{spell_header, write_frame, write_header};
