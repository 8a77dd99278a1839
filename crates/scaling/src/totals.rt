// The weight of a whole term.
ghost use Rattle.std.specs.Prelude.{◌≡◌};
ghost use Rattle.terms.specs.Term.{weight};
ghost use Rattle.terms.specs.Words.{term_of};
ghost use Rattle.format.specs.Statements.{IsTerm};
ghost use Rattle.symbols.specs.Table.{signature_of};
ghost use Rattle.scaling.specs.Scaled.{cut as cutOff};

use crate::rows::Weighing;
use crate::scan::{Scan, cut};

impl Weighing<'_> {
    // The weight of a term, cut off at the limit.
    pub fn weigh(&self, words: &[u16]) -> u64
        requires { IsTerm (signature_of self.now.table.now) words.now }
        ensures { result
            ≡ cutOff (weight (signature_of self.now.table.now)
            (term_of (signature_of self.now.table.now) words.now)) }
    {
        let mut scan = Scan::new();
        for word in words {
            scan.advance(self, *word);
        }
        cut(scan.sum)
    }
}
