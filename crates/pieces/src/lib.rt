// Pieces of a term that is to be simplified, whole parts and sums of some elements of a flattening, which a mask takes;
// their words, and those of instances of a rule's side, put into a buffer.
#![tactic(auto)]

pub mod bindings;
pub mod buffer;
pub mod comparison;
pub mod elements;
pub mod instances;
pub mod masks;
pub mod results;
pub mod sizes;
pub mod sums;

// How many words a buffer for an instance of a rule's side holds.
pub const ROOM: usize = 48;

// How many variables a pattern may have: a rule's, one for a rest, and one for a sum of others.
pub const VARIABLES: usize = 18;
