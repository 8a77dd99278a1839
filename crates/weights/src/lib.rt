// Weights and occurrences of variables of whole terms.
#![tactic(auto)]

mod digits;
pub mod nodes;
pub mod totals;

pub use crate::nodes::{Weighing, put_node_sums};
pub use crate::totals::Totals;
