//! What an attempt answers.
use host_plan::Plan;

/// What comes of an attempt to serve a request.
#[derive(Debug, Drop)]
pub enum Attempt {
    /// It is served, by this plan.
    Served(Plan),
    /// The place's word was found held.
    Busy,
    /// The counters that it takes pass their end.
    ClockEnd,
    /// Want of memory.
    Memory,
}
