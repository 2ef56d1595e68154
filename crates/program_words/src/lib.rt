//! The words of the program: which command they ask for, with which key, and with which numbers.
//!
//! `read_words` in `words.rt` reads them by the kit's `clap`, which is told of the commands in `command_line.rt`, and is
//! proved against clap's own rules: what they ask for is defined in `specs/Words.antt`. A key is read from its digits in
//! `key.rt` by the kit's `hex`, numbers in `numbers.rt`: those of a host in `host_words.rt`, those of a load in
//! `load_words.rt`, those of a client that signs in `sign_words.rt`.
#![tactic(auto)]

mod command_line;
mod found;
mod host_words;
mod key;
mod load_words;
mod numbers;
mod sign_words;
mod words;

pub use host_words::{HostNumbers, PathWord, RunWords};
pub use key::{Key, LONGEST_KEY, SHORTEST_KEY};
pub use load_words::{GenWords, LoadNumbers};
pub use sign_words::{SignNumbers, SignWords};
pub use words::{Asked, CheckWords, SealWords, WordsFault, read_words};
