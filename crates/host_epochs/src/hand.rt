//! A worker at the table.
ghost use Rattle.std.specs.Prelude.{◌≡◌};

use crate::making::Place;

/// With it a worker takes places of a table and gives them back, and goes on by its epochs. It goes with the worker from thread
/// to thread.
#[derive(Drop)]
pub struct Hand {
    pub(crate) seat: Place,
    pub(crate) number: u16,
    // How many epochs the worker entered.
    pub(crate) entered: u64,
}

impl Hand {
    ghost use Rattle.host_epochs.specs.Hands.{worker_of};

    /// The worker's number.
    pub fn worker(&self) -> u16
        ensures worker { result ≡ worker_of self.now }
    {
        self.number
    }
}
