// AC-equivalence of decoded terms, and the cancelling of AC-equivalent pairs: node words in prefix order, with the keys
// of all parts beside them.
#![tactic(auto)]

pub mod cancel;
pub mod equivalence;
pub mod flatten;
pub mod keys;
pub mod offsets;

// How many elements a flattening may have: those of a term with an AC symbol at each inner node.
pub const MAX_ELEMENTS: usize = 64;
