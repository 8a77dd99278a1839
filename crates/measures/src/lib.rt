// Weights and occurrences of variables of the parts of a term, by offset.
#![tactic(auto)]

pub mod sums;

// How many sums are stored for a term: those from each offset on, and those from its end on.
pub const SUMS: usize = format::MAX_NODES + 1;
