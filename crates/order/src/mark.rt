// The mark of two whole terms.
ghost use Rattle.std.specs.Prelude.{◌≡◌};
ghost use Rattle.symbols.specs.Table.{signature_of};
ghost use Rattle.operations.specs.Enums.{mark_number};
ghost use Rattle.reader.specs.Promise.{Decoded};
ghost use Rattle.weights.specs.Totals.{Totalled};
ghost use Rattle.extensions.specs.Compared.{higher_mark};
ghost use Rattle.order.specs.Whole.{SameRoot, mark_of};

use crate::Weighed;
use crate::level::{arguments_mark, paired, prepare_both};
use extensions::{Measured, higher};
use format::MAX_NODES;
use measures::SUMS;
use measures::sums::sum_up;
use operations::Mark;
use weights::{Totals, Weighing};

// The mark of two terms of equal weight with the same root, where no variable occurs oftener in the right one.
fn mark_level(weighing: &Weighing, left: &[u16], right: &[u16]) -> Mark
    requires { Decoded weighing.now.table.now left.now right.now × SameRoot weighing.now.table.now left.now right.now }
    ensures { mark_number result ≡ mark_of weighing.now.table.now left.now right.now }
{
    let mut left_keys = [0u64; MAX_NODES];
    let mut right_keys = [0u64; MAX_NODES];
    if prepare_both(weighing.table, left, &mut left_keys, right, &mut right_keys) {
        return Mark::SidesEqual;
    }
    let pair = paired(weighing.table, left, &left_keys, right, &right_keys);
    let mut left_sums = [Totals::NONE; SUMS];
    let mut right_sums = [Totals::NONE; SUMS];
    sum_up(weighing, left, &mut left_sums);
    sum_up(weighing, right, &mut right_sums);
    let terms = Measured {
        pair,
        left_sums: &left_sums,
        right_sums: &right_sums,
    };
    arguments_mark(&terms).unwrap_or(Mark::NoCase)
}

// The mark where the left of two terms of equal weight has the higher root, by the right one's word.
fn higher_mark(g: u16) -> Mark
    ensures { mark_number result ≡ higher_mark g }
{
    if g >= format::FIRST_VARIABLE {
        Mark::FallsByWrapping
    } else {
        Mark::FallsByRank
    }
}

// The mark of two terms.
pub fn mark(weighing: &Weighing, left: &Weighed, right: &Weighed) -> Mark
    requires decoded { Decoded weighing.now.table.now left.now.words.now right.now.words.now }
    requires totalled { Totalled (signature_of weighing.now.table.now) left.now.words.now left.now.total
        × Totalled (signature_of weighing.now.table.now) right.now.words.now right.now.total }
    ensures { mark_number result ≡ mark_of weighing.now.table.now left.now.words.now right.now.words.now }
{
    if left.total.first_oftener(right.total).is_some() {
        return Mark::VariableAdded;
    }
    let x = left.total.weight;
    let y = right.total.weight;
    if y < x {
        return Mark::FallsByWeight;
    }
    if x < y {
        return Mark::LeftLighter;
    }
    let f = left.words[0];
    let g = right.words[0];
    if f == g {
        return mark_level(weighing, left.words, right.words);
    }
    if higher(weighing.table, f, g) {
        return higher_mark(g);
    }
    Mark::NoCase
}
