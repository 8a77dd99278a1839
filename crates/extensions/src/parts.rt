// The elements of a flattening, split by their roots, and the high part that is compared.
ghost use Rattle.std.specs.Prelude.{◌≡◌, ◌++◌, ◌+◌, ◌≤◌, ◌<◌, length};
ghost use Rattle.symbols.specs.Table.{signature_of};
ghost use Rattle.subterms.specs.Parts.{elements_at, Stands};
ghost use Rattle.equivalence.specs.Offsets.{AtOffsets, OffsetsIn, terms_at, left_at};
ghost use Rattle.extensions.specs.Compared.{Parted};

use equivalence::keys::{Keyed, Pair};
use equivalence::offsets::Offsets;
use format::FIRST_VARIABLE;
use std::cmp::Ordering;
use symbols::precedence;

// The offsets of the elements that stand above the flattening's symbol, of those below it and of the variables, and how
// many elements there are.
#[derive(Drop)]
pub struct Parts {
    pub above: Offsets,
    pub below: Offsets,
    pub variables: Offsets,
    pub all: usize,
}

impl Parts {
    pub fn empty() -> Parts
        ensures { (result.above.count ≡ 0) × (result.below.count ≡ 0) × (result.variables.count ≡ 0)
            × (result.all ≡ 0) }
    {
        Parts {
            above: Offsets::empty(),
            below: Offsets::empty(),
            variables: Offsets::empty(),
            all: 0,
        }
    }

    // Lists the parts of the flattenings for f of the n terms at i; what was listed goes.
    #[inline]
    pub fn list(&mut self, term: &Keyed, f: u16, i: usize, n: usize)
        requires stands { Stands (signature_of term.now.table.now) term.now.words.now i n }
        requires f_bound { (f < 256)
            × (length (elements_at (signature_of term.now.table.now) f term.now.words.now i n) ≤ 64) }
        ensures { Parted (signature_of term.now.table.now) f term.now.words.now
            (elements_at (signature_of term.now.table.now) f term.now.words.now i n) self.new }
    {
        let mut elements = Offsets::empty();
        term.elements(f, i, n, &mut elements);
        self.above.count = 0;
        self.below.count = 0;
        self.variables.count = 0;
        self.all = elements.count;
        let rank = precedence(term.table, f);
        for k in 0..elements.count {
            let p = elements.get(k);
            let word = term.words[p];
            if word >= FIRST_VARIABLE {
                self.variables.push(p);
            } else {
                match precedence(term.table, word).cmp(&rank) {
                    Ordering::Greater => self.above.push(p),
                    Ordering::Less => self.below.push(p),
                    Ordering::Equal => {}
                }
            }
        }
    }
}

// Cancels the variables of both sides, and puts what is left of the right ones after the right's high part.
pub fn join_surplus(pair: &Pair, left: &mut Offsets, right: &mut Offsets, high: &mut Offsets)
    requires offsets_in { OffsetsIn pair.now.left.table.now pair.now.left.words.now left.old.bytes left.old.count }
    requires offsets_in_2 { OffsetsIn pair.now.left.table.now pair.now.right.words.now right.old.bytes right.old.count }
    requires offsets_in_3 { OffsetsIn pair.now.left.table.now pair.now.right.words.now high.old.bytes high.old.count }
    requires b_bound { high.old.count + right.old.count ≤ 64 }
    ensures { AtOffsets (signature_of pair.now.left.table.now) pair.now.right.words.now high.new.bytes high.new.count
        (terms_at pair.now.left.table.now pair.now.right.words.now high.old.bytes high.old.count
        ++ (left_at pair.now.left.table.now pair.now.left.words.now left.old.bytes left.old.count
        pair.now.right.words.now right.old.bytes right.old.count).right) }
{
    pair.cancel(left, right);
    for k in 0..right.count {
        high.push(right.get(k));
    }
}
