// Parts of terms: their weights, and the variable test of two of them.
ghost use Rattle.std.specs.Prelude.{◌≡◌, ℕ, ◌≤◌, ◌<◌, length, get_or, replicate, IfSome};
ghost use Rattle.std.specs.Option.{unwrap_or};
ghost use Rattle.terms.specs.Term.{weight, variable_count};
ghost use Rattle.terms.specs.Oftener.{first_oftener};
ghost use Rattle.symbols.specs.Table.{signature_of};
ghost use Rattle.subterms.specs.Parts.{part_at};
ghost use Rattle.scaling.specs.Scaled.{limit, Side, Ends, CountedAt, more_from};

use crate::sums::{OFFSETS, Offset};
use format::{FIRST_VARIABLE, VARIABLES};

// The part of a term that is not too heavy whose words stand at an offset and end before another, with what is stored
// for the term's offsets.
#[derive(Clone, Copy)]
pub struct Part<'a> {
    pub table: &'a [u16],
    pub words: &'a [u16],
    pub sums: &'a [Offset; OFFSETS],
    pub start: usize,
    pub end: usize,
    pub ghost side: { ∥ Side (signature_of table.now) words.now sums.now ∥₁ },
    pub ghost ends: { Ends (signature_of table.now) words.now start end },
}

impl Part<'_> {
    // The weight of the part.
    pub fn weight(&self) -> u64
        ensures { result
            ≡ weight (signature_of self.now.table.now)
            (part_at (signature_of self.now.table.now) self.now.words.now self.now.start) }
    {
        let here = self.sums[self.start];
        (self.sums[self.end].sum - here.sum) / here.product
    }

    // Counts the variables of the part, each times the product above it.
    fn count(&self, counts: &mut [u64; VARIABLES])
        requires { counts.old ≡ replicate 16 0 }
        ensures { CountedAt (signature_of self.now.table.now) self.now.words.now self.now.start counts.new
            × (length counts.new ≡ 16) }
    {
        for k in self.start..self.end {
            let word = self.words[k];
            if word >= FIRST_VARIABLE {
                let x = (word - FIRST_VARIABLE) as usize;
                counts[x] += self.sums[k].product;
            }
        }
    }

    // The first variable that occurs oftener in the right part.
    pub fn first_oftener(&self, right: &Part) -> Option<usize>
        requires { self.now.table.now ≡ right.now.table.now }
        ensures value { unwrap_or result variable_count
            ≡ first_oftener (signature_of self.now.table.now)
            (part_at (signature_of self.now.table.now) self.now.words.now self.now.start)
            (part_at (signature_of self.now.table.now) right.now.words.now right.now.start) }
        ensures below { IfSome result (λ x. x < variable_count) }
    {
        let mut mine = [0u64; VARIABLES];
        let mut others = [0u64; VARIABLES];
        self.count(&mut mine);
        right.count(&mut others);
        let above = self.sums[self.start].product;
        first_more(&mine, above, &others, right.sums[right.start].product)
    }
}

// The first of the sixteen numbers that is greater on the right, the left ones times g and the right ones times f.
fn first_more(left: &[u64; VARIABLES], f: u64, right: &[u64; VARIABLES], g: u64) -> Option<usize>
    requires f_le_limit { (f ≤ limit) × (g ≤ limit) }
    requires by_index { (x : ℕ) → x < variable_count → (get_or left.now x 0 < limit) × (get_or right.now x 0 < limit) }
    ensures value { unwrap_or result variable_count ≡ more_from left.now f right.now g 0 variable_count }
    ensures below { IfSome result (λ x. x < variable_count) }
{
    for x in 0..VARIABLES {
        if left[x] * g < right[x] * f {
            return Some(x);
        }
    }
    None
}
