// The relation of two whole terms.
ghost use Rattle.std.specs.Prelude.{◌≡◌};
ghost use Rattle.symbols.specs.Table.{signature_of};
ghost use Rattle.reader.specs.Promise.{Decoded};
ghost use Rattle.weights.specs.Totals.{Totalled};
ghost use Rattle.measures.specs.Sums.{SummedUp};
ghost use Rattle.extensions.specs.Compared.{greater_at};
ghost use Rattle.order.specs.Whole.{Level, relation_of};

use crate::Weighed;
use crate::level::{arguments_mark, paired, prepare_both};
use crate::mark::mark;
use extensions::Measured;
use format::MAX_NODES;
use marks::{is_decreasing, number};
use measures::SUMS;
use operations::{Mark, Relation};
use weights::{Totals, Weighing};

// Is the left one greater, of two terms of equal weight with the same root and these totals?
fn greater_level(terms: &Measured, left: Totals, right: Totals) -> bool
    requires { Level terms.now.pair.left.table.now terms.now.pair.left.words.now left
        terms.now.pair.right.words.now right }
    ensures { result
        ≡ greater_at terms.now.pair.left.table.now terms.now.pair.left.words.now 0 terms.now.pair.right.words.now 0 }
{
    left.first_oftener(right).is_none() && arguments_mark(terms).is_some()
}

// How two terms of equal weight with the same root are related.
fn relation_level<'a>(
    table: &'a [u16],
    left: Weighed<'a>,
    left_sums: &'a [Totals; SUMS],
    right: Weighed<'a>,
    right_sums: &'a [Totals; SUMS],
) -> Relation
    requires level { Level table.now left.words.now left.total right.words.now right.total }
    requires summed_up { SummedUp (signature_of table.now) left.words.now left_sums.now
        × SummedUp (signature_of table.now) right.words.now right_sums.now }
    ensures { result ≡ relation_of table.now left.entry.words.now right.entry.words.now }
{
    let mut left_keys = [0u64; MAX_NODES];
    let mut right_keys = [0u64; MAX_NODES];
    if prepare_both(
        table,
        left.words,
        &mut left_keys,
        right.words,
        &mut right_keys,
    ) {
        return Relation::Equivalent;
    }
    let pair = paired(table, left.words, &left_keys, right.words, &right_keys);
    let terms = Measured {
        pair,
        left_sums,
        right_sums,
    };
    if greater_level(&terms, left.total, right.total) {
        return Relation::Greater;
    }
    if greater_level(&terms.turned(), right.total, left.total) {
        return Relation::Less;
    }
    Relation::Unrelated
}

// How two terms with these sums are related: by their marks both ways, unless they are level.
pub fn relation(
    weighing: &Weighing,
    left: &Weighed,
    left_sums: &[Totals; SUMS],
    right: &Weighed,
    right_sums: &[Totals; SUMS],
) -> Relation
    requires decoded { Decoded weighing.now.table.now left.now.words.now right.now.words.now }
    requires totalled { Totalled (signature_of weighing.now.table.now) left.now.words.now left.now.total
        × Totalled (signature_of weighing.now.table.now) right.now.words.now right.now.total }
    requires summed_up { SummedUp (signature_of weighing.now.table.now) left.now.words.now left_sums.now
        × SummedUp (signature_of weighing.now.table.now) right.now.words.now right_sums.now }
    ensures { result ≡ relation_of weighing.now.table.now left.now.words.now right.now.words.now }
{
    if left.total.weight == right.total.weight && left.words[0] == right.words[0] {
        return relation_level(weighing.table, *left, left_sums, *right, right_sums);
    }
    match mark(weighing, left, right) {
        Mark::SidesEqual => Relation::Equivalent,
        m if is_decreasing(number(m)) => Relation::Greater,
        _ => {
            if is_decreasing(number(mark(weighing, right, left))) {
                Relation::Less
            } else {
                Relation::Unrelated
            }
        }
    }
}
