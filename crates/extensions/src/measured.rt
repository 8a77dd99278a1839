// What is compared: two terms with the keys and the sums of all their parts.
ghost use Rattle.std.specs.Prelude.{◌≡◌};
ghost use Rattle.terms.specs.Signature.{Admissible};
ghost use Rattle.symbols.specs.Table.{signature_of};
ghost use Rattle.measures.specs.Sums.{SummedUp};

use equivalence::keys::Pair;
use measures::SUMS;
use weights::Totals;

// Two terms under one admissible symbol table whose coefficients are all 1, with their sums by offset.
#[derive(Clone, Copy)]
pub struct Measured<'a> {
    pub pair: Pair<'a>,
    pub left_sums: &'a [Totals; SUMS],
    pub right_sums: &'a [Totals; SUMS],
    pub ghost admissible: { Admissible (signature_of pair.left.table.now) },
    pub ghost left_summed: { SummedUp (signature_of pair.left.table.now) pair.left.words.now left_sums.now },
    pub ghost right_summed: { SummedUp (signature_of pair.left.table.now) pair.right.words.now right_sums.now },
}

impl<'a> Measured<'a> {
    // The same two terms, the right one first.
    pub fn turned(&self) -> Measured<'a>
        ensures table { result.pair.left.table.now ≡ self.now.pair.left.table.now }
        ensures left { result.pair.left.words.now ≡ self.now.pair.right.words.now }
        ensures right { result.pair.right.words.now ≡ self.now.pair.left.words.now }
    {
        Measured {
            pair: Pair {
                left: self.pair.right,
                right: self.pair.left,
            },
            left_sums: self.right_sums,
            right_sums: self.left_sums,
        }
    }
}
