// The AC-compatible Knuth-Bendix order on parts of decoded terms, with its lexicographic and its multiset extension:
// node words in prefix order, with the keys and the sums of all parts beside them.
#![tactic(auto)]

pub mod compare;
pub mod measured;
pub mod parts;

pub use crate::compare::higher;
pub use crate::measured::Measured;
