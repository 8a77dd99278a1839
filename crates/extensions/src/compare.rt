// The comparison: terms, rows of arguments, flattenings and lists of offsets, which call one another.
ghost use Rattle.std.specs.Prelude.{◌≡◌, true, cond, ◌+◌, ◌≤◌, ◌<◌, eqb, length};
ghost use Rattle.symbols.specs.Table.{signature_of};
ghost use Rattle.subterms.specs.Parts.{elements_at};
ghost use Rattle.equivalence.specs.Offsets.{OffsetsIn, terms_at};
ghost use Rattle.extensions.specs.Compared.{is_higher, none_oftener_at, greater_at, rows_greater, BothStand, flattened_at, covered};
ghost use Rattle.extensions.specs.Compared.{multiset_outcome, outcome_number, mark_or_none};

use crate::measured::Measured;
use crate::parts::{Parts, join_surplus};
use equivalence::offsets::Offsets;
use format::FIRST_VARIABLE;
use measures::sums::total_at;
use operations::Mark;
use symbols::{arity, is_ac, precedence};

// How a multiset of terms is related to another.
#[derive(Clone, Copy, PartialEq, Eq)]
pub enum Outcome {
    Above,
    Equivalent,
    Neither,
}

// Is the first word a symbol, and the second a variable or lower in the precedence? Of terms of equal weight, where no
// variable occurs oftener on the right, one that is no variable is, beside a variable, that variable under copies of
// the unary symbol of weight 0.
pub fn higher(table: &[u16], f: u16, g: u16) -> bool
    ensures { result ≡ is_higher table.now f g }
{
    f < FIRST_VARIABLE && (g >= FIRST_VARIABLE || precedence(table, g) < precedence(table, f))
}

// The index that comes next, or the one after it where the next was tried first.
fn past(next: usize, first: usize) -> usize
    requires { next ≤ 64 }
    ensures { (result ≡ cond (eqb next first) (next + 1) next) × (next ≤ result) × (result ≤ next + 1) }
{
    if next == first { next + 1 } else { next }
}

impl Measured<'_> {
    // Is the term at i greater than the term at j? The test of the variables is short enough to stand where this is
    // called.
    #[cycle(compare)]
    #[inline]
    fn greater(&self, i: usize, j: usize) -> bool
        requires { (i < length self.now.pair.left.words.now) × (j < length self.now.pair.right.words.now) }
        ensures { result
            ≡ greater_at self.now.pair.left.table.now self.now.pair.left.words.now i self.now.pair.right.words.now j }
    {
        let left = total_at(&self.pair.left, self.left_sums, i);
        let right = total_at(&self.pair.right, self.right_sums, j);
        left.first_oftener(right).is_none() && self.exceeds(i, j)
    }

    // The same, where no variable occurs oftener in the term at j: by the weights, the roots or the arguments. It is never
    // inlined, so that `greater` is.
    #[cycle(compare)]
    #[inline(never)]
    fn exceeds(&self, i: usize, j: usize) -> bool
        requires i_in_bounds { (i < length self.now.pair.left.words.now)
            × (j < length self.now.pair.right.words.now) }
        requires none_oftener { true
            ≡ none_oftener_at self.now.pair.left.table.now self.now.pair.left.words.now i
            self.now.pair.right.words.now j }
        ensures { result
            ≡ greater_at self.now.pair.left.table.now self.now.pair.left.words.now i self.now.pair.right.words.now j }
    {
        let x = total_at(&self.pair.left, self.left_sums, i).weight;
        let y = total_at(&self.pair.right, self.right_sums, j).weight;
        if x != y {
            return y < x;
        }
        let table = self.pair.left.table;
        let f = self.pair.left.words[i];
        let g = self.pair.right.words[j];
        if f != g {
            return higher(table, f, g);
        }
        if f >= FIRST_VARIABLE {
            return false;
        }
        let n = arity(table, f);
        if is_ac(table, f) {
            return self.flattened(i + 1, j + 1, f, n).is_some();
        }
        self.rows_greater(i + 1, j + 1, n)
    }

    // Are the n terms at i greater than those at j, at the first where they are not equivalent?
    #[cycle(compare)]
    pub fn rows_greater(&self, i: usize, j: usize, n: usize) -> bool
        requires { BothStand self.now.pair.left.table.now self.now.pair.left.words.now i
            self.now.pair.right.words.now j n }
        ensures { result
            ≡ rows_greater self.now.pair.left.table.now self.now.pair.left.words.now i
            self.now.pair.right.words.now j n }
    {
        let mut at = i;
        let mut to = j;
        for _ in 0..n {
            if !self.pair.equivalent_by_keys(at, to) {
                return self.greater(at, to);
            }
            at += self.pair.left.size_at(at);
            to += self.pair.right.size_at(to);
        }
        false
    }

    // The mark of the flattenings for f of the n terms at i and of those at j: it falls by the high terms, the count or
    // the low terms.
    #[cycle(compare)]
    pub fn flattened(&self, i: usize, j: usize, f: u16, n: usize) -> Option<Mark>
        requires both_stand { BothStand self.now.pair.left.table.now self.now.pair.left.words.now i
            self.now.pair.right.words.now j n }
        requires f_bound { (f < 256)
            × (length (elements_at (signature_of self.now.pair.left.table.now) f self.now.pair.left.words.now i n) ≤ 64)
            × (length (elements_at (signature_of self.now.pair.left.table.now) f self.now.pair.right.words.now j n)
            ≤ 64) }
        ensures { mark_or_none result
            ≡ flattened_at self.now.pair.left.table.now f self.now.pair.left.words.now i
            self.now.pair.right.words.now j n }
    {
        let mut left = Parts::empty();
        let mut right = Parts::empty();
        left.list(&self.pair.left, f, i, n);
        right.list(&self.pair.right, f, j, n);
        join_surplus(
            &self.pair,
            &mut left.variables,
            &mut right.variables,
            &mut right.above,
        );
        match self.compare(&mut left.above, &mut right.above) {
            Outcome::Above => return Some(Mark::FallsByHighTerms),
            Outcome::Neither => return None,
            Outcome::Equivalent => {}
        }
        if right.all < left.all {
            return Some(Mark::FallsByCount);
        }
        if left.all < right.all {
            return None;
        }
        match self.compare(&mut left.below, &mut right.below) {
            Outcome::Above => Some(Mark::FallsByLowTerms),
            _ => None,
        }
    }

    // How the terms at these offsets of the left are related, as a multiset, to those at these offsets of the right.
    #[cycle(compare)]
    #[inline]
    fn compare(&self, left: &mut Offsets, right: &mut Offsets) -> Outcome
        requires offsets_in { OffsetsIn self.now.pair.left.table.now self.now.pair.left.words.now left.old.bytes
            left.old.count }
        requires offsets_in_2 { OffsetsIn self.now.pair.left.table.now self.now.pair.right.words.now right.old.bytes
            right.old.count }
        ensures { outcome_number result
            ≡ multiset_outcome self.now.pair.left.table.now
            (terms_at self.now.pair.left.table.now self.now.pair.left.words.now left.old.bytes left.old.count)
            (terms_at self.now.pair.left.table.now self.now.pair.right.words.now right.old.bytes right.old.count) }
    {
        self.pair.cancel(left, right);
        if left.count == 0 {
            if right.count == 0 {
                return Outcome::Equivalent;
            }
            return Outcome::Neither;
        }
        if self.covers(left, right) {
            return Outcome::Above;
        }
        Outcome::Neither
    }

    // Does each term at these offsets of the right have a greater one at those of the left? Each search begins with the
    // one that was greater than the term before, which is often greater than all, and tries none twice.
    #[cycle(compare)]
    #[inline]
    fn covers(&self, left: &Offsets, right: &Offsets) -> bool
        requires offsets_in { OffsetsIn self.now.pair.left.table.now self.now.pair.left.words.now left.now.bytes
            left.now.count }
        requires some_left { 0 < left.now.count }
        requires offsets_in_2 { OffsetsIn self.now.pair.left.table.now self.now.pair.right.words.now right.now.bytes
            right.now.count }
        ensures { result
            ≡ covered self.now.pair.left.table.now
            (terms_at self.now.pair.left.table.now self.now.pair.left.words.now left.now.bytes left.now.count)
            (terms_at self.now.pair.left.table.now self.now.pair.right.words.now right.now.bytes right.now.count) }
    {
        let mut x = 0;
        'right: for k in 0..right.count {
            let j = right.get(k);
            let first = x;
            let mut next = 0;
            'left: loop {
                if left.count <= x {
                    return false;
                }
                if self.greater(left.get(x), j) {
                    break 'left;
                }
                x = past(next, first);
                next = x + 1;
            }
        }
        true
    }
}
