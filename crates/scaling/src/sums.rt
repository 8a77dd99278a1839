// Sums and products by offset, stored once from left to right.
ghost use Rattle.std.specs.Prelude.{◌≡◌};
ghost use Rattle.terms.specs.Term.{weight};
ghost use Rattle.terms.specs.Words.{term_of};
ghost use Rattle.format.specs.Statements.{IsTerm};
ghost use Rattle.symbols.specs.Table.{signature_of};
ghost use Rattle.scaling.specs.Scaled.{cut as cutOff, ScaledUp};

use crate::rows::Weighing;
use crate::scan::{Scan, cut};

// How many offsets a term has, and the one past it.
pub const OFFSETS: usize = 129;

// The sum of the weights before an offset, and the product above the word there.
#[derive(Clone, Copy)]
pub struct Offset {
    pub sum: u64,
    pub product: u64,
}

impl Weighing<'_> {
    // Stores the sums and products of a term, and gives its weight, cut off at the limit.
    pub fn scale_up(&self, words: &[u16], sums: &mut [Offset; OFFSETS]) -> u64
        requires { IsTerm (signature_of self.now.table.now) words.now }
        ensures scaled_up { ScaledUp (signature_of self.now.table.now) words.now sums.new }
        ensures value { result
            ≡ cutOff (weight (signature_of self.now.table.now)
            (term_of (signature_of self.now.table.now) words.now)) }
    {
        let mut scan = Scan::new();
        for (k, word) in words.iter().enumerate() {
            let product = scan.product();
            sums[k] = Offset {
                sum: scan.sum,
                product,
            };
            scan.advance(self, *word);
        }
        sums[words.len()] = Offset {
            sum: scan.sum,
            product: 1,
        };
        cut(scan.sum)
    }
}
