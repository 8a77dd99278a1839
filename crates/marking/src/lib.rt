// Marking the rules of a rule file, and the text that `marker` prints.
#![tactic(auto)]

pub mod mark;
pub mod report;
pub mod rule;
mod under;
pub mod walk;

pub use crate::under::Under;
