//! How a script that was served ends.
ghost use Rattle.std.specs.Prelude.{◌≡◌};
ghost use Rattle.verifier_threads.specs.Serving.{status_at};

use host_world::ClockEnd;
use report_text::Status;

/// How a script ends that was served as far as it could be.
#[derive(Clone, Copy, Debug, PartialEq, Eq)]
pub enum RunEnd {
    /// Every request is answered, and so many epochs are certified.
    Done(u64),
    /// A worker's clock came to its end.
    ClockEnd(ClockEnd),
}

impl RunEnd {
    /// The status of a run that ends so.
    pub fn status(&self) -> Status
        ensures value { result ≡ status_at self.now }
    {
        match self {
            RunEnd::Done(epochs) => Status::Done { epochs: *epochs },
            RunEnd::ClockEnd(end) => Status::ClockEnd {
                worker: end.worker,
                at: end.at,
            },
        }
    }
}
