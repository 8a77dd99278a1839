// Sums by offset, prepared once from right to left, and the totals of a part.
ghost use Rattle.std.specs.Prelude.{◌≡◌, ◌<◌, length};
ghost use Rattle.terms.specs.Term.{weight};
ghost use Rattle.format.specs.Statements.{IsTerm};
ghost use Rattle.symbols.specs.Table.{signature_of};
ghost use Rattle.subterms.specs.Parts.{part_at};
ghost use Rattle.weights.specs.Totals.{Counted, Totalled};
ghost use Rattle.measures.specs.Sums.{sums_length, SummedUp};

use crate::SUMS;
use equivalence::keys::Keyed;
use weights::{Totals, Weighing};

// Writes the sums over all words of a term from each offset on, and gives those over the term.
pub fn sum_up(weighing: &Weighing, words: &[u16], sums: &mut [Totals; SUMS]) -> Totals
    requires { IsTerm (signature_of weighing.now.table.now) words.now × (length sums.old ≡ sums_length) }
    ensures summed_up { SummedUp (signature_of weighing.now.table.now) words.now sums.new }
    ensures totalled { Totalled (signature_of weighing.now.table.now) words.now result }
{
    let mut here = Totals::NONE;
    sums[words.len()] = here;
    for i in (0..words.len()).rev() {
        here = here + weighing.adds[usize::from(words[i])];
        sums[i] = here;
    }
    here
}

// The sums over the part at i: those from there on less those from its end on.
pub fn total_at(term: &Keyed, sums: &[Totals; SUMS], i: usize) -> Totals
    requires summed_up { SummedUp (signature_of term.now.table.now) term.now.words.now sums.now }
    requires i_in_bounds { i < length term.now.words.now }
    ensures weight_value { result.weight
        ≡ weight (signature_of term.now.table.now) (part_at (signature_of term.now.table.now) term.now.words.now i) }
    ensures counted { Counted (part_at (signature_of term.now.table.now) term.now.words.now i) result }
{
    sums[i] - sums[i + term.size_at(i)]
}
