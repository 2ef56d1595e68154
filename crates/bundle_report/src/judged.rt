//! Which epochs are certified, over all verifiers.
use multiset_sum::Sum;

/// A sealed epoch whose sums differ.
#[derive(Clone, Copy, Debug, PartialEq, Eq)]
pub struct Uneven {
    pub epoch: u32,
    pub added: Sum,
    pub evicted: Sum,
}

/// How many epochs are certified, and the next one where all verifiers have sealed it and its sums differ.
#[derive(Clone, Copy, Debug, PartialEq, Eq)]
pub struct Judged {
    pub count: usize,
    pub unbalanced: Option<Uneven>,
}
