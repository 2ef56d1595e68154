//! How a verifier is fed while its worker serves.
//!
//! A worker has one log of bytes for the whole run, and an `Outbox`, which knows how many of these bytes it has sent. It sends copies
//! of pieces of the log through a lane of `log_rings`, in parcels. The verifier's `Inbox` polls the lane and feeds the run what comes.
//! Neither waits for the other, so once both threads have come together `settle` feeds the run what is left. `specs/Feeds.antt` says
//! what is known of both ends. Begin with `open` in `opening.rt`.
#![tactic(auto)]

mod inbox;
mod opening;
mod outbox;
mod settling;

pub use inbox::Inbox;
pub use opening::open;
pub use outbox::Outbox;
pub use settling::settle;
