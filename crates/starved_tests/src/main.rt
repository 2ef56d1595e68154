//! Calls of which one allocation may be refused: all is then as before, or a front of what was to be made is there, and the same
//! call again is made.
//!
//! A line of the input is a call's name and how many allocations are made first, to no use: `fork 12`. So a run in which some
//! allocation is refused refuses an earlier one of the call's the more are made first, and `tools/fuzzer/refuse_memory.py` has each
//! refused in turn. Where none is, the program says so of each call.
//!
//! `trying` has the calls by their names, `seat` a shard with its hot places and its worker's clock, `plans`, `tables`, `logs`,
//! `audits` and `moves` the calls, `same` what is compared, and `outcome` what a try tells.
#![tactic(auto)]

mod audits;
mod logs;
mod moves;
mod outcome;
mod plans;
mod same;
mod seat;
mod tables;
mod trying;

use crate::trying::told;
use std::io;

fn main(rt: HostRuntime) -> io::Result<()> {
    for line in rt.lines(rt.alloc()) {
        let line = line?;
        let words = line.as_str();
        let text = told(rt.alloc(), words);
        println!(rt; "{words}: {text}")?;
    }
    Ok(())
}
