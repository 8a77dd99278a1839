// The AC-compatible Knuth-Bendix order on whole decoded terms: their mark and their relation.
#![tactic(auto)]

use weights::Totals;

mod level;
pub mod mark;
pub mod relation;

pub use crate::level::{arguments_mark, prepare_both};

// A term by its node words, with its sums.
#[derive(Clone, Copy)]
pub struct Weighed<'a> {
    pub words: &'a [u16],
    pub total: Totals,
}
