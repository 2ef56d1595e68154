//! The shipped host as a world: its places and workers, and what each event of them does.
#![tactic(auto)]

mod acting;
mod beginning;
mod event;
mod fault;
mod handing_out;
mod laws;
mod lending;
mod placing;
mod round_laws;
mod seats;
mod stepping;
mod telling;
mod worker;
mod world;

pub use event::Event;
pub use fault::{ClockEnd, EventStop, WorldFault};
pub use laws::{
    clocks_end_as_worked_out, logs_are_as_worked_out, orders_of_two_workers_are_enabled,
    worlds_are_as_promised,
};
pub use round_laws::{
    clocks_end_in_rounds_as_worked_out, rounds_log_as_worked_out, worked_rounds_are_enabled,
};
pub use seats::Seats;
pub use worker::{Held, Worker};
pub use world::World;
