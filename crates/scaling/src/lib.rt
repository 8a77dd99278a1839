// Weights and counts of variables with coefficients: each word of a term counts as often as the product of the
// coefficients above it says. Only this crate knows how the products are kept.
#![tactic(auto)]

pub mod parts;
pub mod rows;
mod scan;
pub mod sums;
pub mod totals;
