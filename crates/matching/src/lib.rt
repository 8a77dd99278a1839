// Matching a pattern against pieces of a term, word by word: the agenda of pieces that are yet to be matched, and the
// pieces that the pattern's variables are bound to.
#![tactic(auto)]

pub mod agenda;
pub mod flattenings;
pub mod matches;
pub mod nodes;
pub mod patterns;
pub mod search;
pub mod sought;
pub mod variables;
