//! A queue whose items lie side by side, so that those that wait are lent as one slice.
//!
//! A contract sees a `SliceQueue` as `Waiting`: its items, and how many more there is room for (`specs/Waiting.antt`). The
//! kit's `VecDeque` lends two slices. The crate stands on `base_words` for want of memory. Begin with `SliceQueue` in
//! `queue.rt`.
#![tactic(auto)]

mod queue;

pub use queue::SliceQueue;
