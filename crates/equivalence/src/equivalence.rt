// The AC-equivalence test: terms, rows of arguments and flattenings, which call one another.
ghost use Rattle.std.specs.Prelude.{◌≡◌, ℕ, ◌≤◌, ◌<◌, length, get_or};
ghost use Rattle.symbols.specs.Table.{signature_of};
ghost use Rattle.subterms.specs.Parts.{elements_at, Stands};
ghost use Rattle.equivalence.specs.Offsets.{OffsetsIn, Found, alike_at, rows_alike, elements_alike, terms_at};

use crate::keys::Pair;
use crate::offsets::Offsets;
use symbols::{arity, is_ac};

impl Pair<'_> {
    // Are the terms at i and j AC-equivalent?
    #[cycle(equivalent)]
    pub fn equivalent(&self, i: usize, j: usize) -> bool
        requires i_in_bounds { (i < length self.now.left.words.now) × (j < length self.now.right.words.now) }
        ensures { result
            ≡ alike_at self.now.left.table.now self.now.left.words.now i self.now.right.words.now j }
    {
        if self.left.keys[i] != self.right.keys[j] {
            return false;
        }
        let f = self.left.words[i];
        let n = arity(self.left.table, f);
        if is_ac(self.left.table, f) {
            return self.flattenings_equivalent(i + 1, j + 1, f, n);
        }
        self.rows_equivalent(i + 1, j + 1, n)
    }

    // Are the n terms at i and j equivalent in their order?
    #[cycle(equivalent)]
    fn rows_equivalent(&self, i: usize, j: usize, n: usize) -> bool
        requires stands { Stands (signature_of self.now.left.table.now) self.now.left.words.now i n
            × Stands (signature_of self.now.left.table.now) self.now.right.words.now j n }
        ensures { result
            ≡ rows_alike self.now.left.table.now self.now.left.words.now i self.now.right.words.now j n }
    {
        if n == 0 {
            return true;
        }
        let mut at = i;
        let mut to = j;
        for _ in 1..n {
            if !self.equivalent(at, to) {
                return false;
            }
            at += self.left.size_at(at);
            to += self.right.size_at(to);
        }
        // The last two terms answer for the rows, so that a nest of last arguments takes no stack.
        self.equivalent(at, to)
    }

    // Are the flattenings for f of the n terms at i and of those at j equivalent as multisets?
    #[cycle(equivalent)]
    fn flattenings_equivalent(&self, i: usize, j: usize, f: u16, n: usize) -> bool
        requires stands { Stands (signature_of self.now.left.table.now) self.now.left.words.now i n
            × Stands (signature_of self.now.left.table.now) self.now.right.words.now j n }
        requires f_bound { (f < 256)
            × (length (elements_at (signature_of self.now.left.table.now) f self.now.right.words.now j n) ≤ 64) }
        ensures { result
            ≡ elements_alike self.now.left.table.now f self.now.left.words.now i n
            (elements_at (signature_of self.now.left.table.now) f self.now.right.words.now j n) }
    {
        let mut offsets = Offsets::empty();
        self.right.elements(f, j, n, &mut offsets);
        self.cancels(i, f, n, &mut offsets)
    }

    // Does the flattening for f of the n terms at i cancel against the terms at these offsets?
    #[cycle(equivalent)]
    fn cancels(&self, i: usize, f: u16, n: usize, offsets: &mut Offsets) -> bool
        requires stands { Stands (signature_of self.now.left.table.now) self.now.left.words.now i n }
        requires f_bound { f < 256 }
        requires offsets_in { OffsetsIn self.now.left.table.now self.now.right.words.now offsets.old.bytes
            offsets.old.count }
        ensures { result
            ≡ elements_alike self.now.left.table.now f self.now.left.words.now i n
            (terms_at self.now.left.table.now self.now.right.words.now offsets.old.bytes offsets.old.count) }
    {
        let mut at = i;
        let mut owed = n;
        while owed > 0 {
            if self.left.words[at] == f {
                owed = arity(self.left.table, f) + (owed - 1);
                at += 1;
            } else {
                let Some(k) = self.partner(at, offsets) else {
                    return false;
                };
                offsets.delete(k);
                at += self.left.size_at(at);
                owed -= 1;
            }
        }
        offsets.count == 0
    }

    // The index of the first of these offsets whose term is equivalent to the term at i. A term of one node is told by
    // its key.
    #[cycle(equivalent)]
    pub fn partner(&self, i: usize, offsets: &Offsets) -> Option<usize>
        requires i_in_bounds { i < length self.now.left.words.now }
        requires offsets_in { OffsetsIn self.now.left.table.now self.now.right.words.now offsets.now.bytes
            offsets.now.count }
        ensures { Found (λ (k : ℕ). alike_at self.now.left.table.now self.now.left.words.now i
            self.now.right.words.now (get_or offsets.now.bytes k 0)) offsets.now.count result }
    {
        let key = self.left.keys[i];
        let leaf = self.left.size_at(i) == 1;
        for k in 0..offsets.count {
            let j = offsets.get(k);
            if self.right.keys[j] == key && (leaf || self.equivalent(i, j)) {
                return Some(k);
            }
        }
        None
    }

    // The same test of the terms at i and j; terms with different keys are told apart without a call.
    pub fn equivalent_by_keys(&self, i: usize, j: usize) -> bool
        requires i_in_bounds { (i < length self.now.left.words.now) × (j < length self.now.right.words.now) }
        ensures { result
            ≡ alike_at self.now.left.table.now self.now.left.words.now i self.now.right.words.now j }
    {
        self.left.keys[i] == self.right.keys[j] && self.equivalent(i, j)
    }
}
