//! What the verifiers' parts of an epoch say of it: whether all have sealed it, and whether its sums balance.
//!
//! In each epoch the sum over what was evicted must equal the sum over what was added back (Blum et al. 1994),
//! over all verifiers together: `specs/Parts.antt` and `specs/Verdict.antt` define it. The crate stands on
//! `multiset_sum` for the sums, and takes no memory. Begin with `verdict` in `judging.rt`, and `laws.rt`,
//! which says what a verdict means.
#![tactic(auto)]

mod judging;
mod laws;
mod outcome;

pub use judging::verdict;
pub use laws::{balanced_sums_are_equal, missing_is_the_lowest, totals_are_sums_of_all_elements};
pub use outcome::Verdict;
