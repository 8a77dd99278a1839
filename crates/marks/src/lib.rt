// Marks: their numbers, which of them are those of the order, how many, where margins are stored, and the score.
#![tactic(auto)]

ghost use Rattle.std.specs.Prelude.{◌≡◌, [], ◌∷◌, ◌≤◌, ◌<◌, set};
ghost use Rattle.terms.specs.Marks.{is_decreasing};
ghost use Rattle.operations.specs.Enums.{mark_number};
ghost use Rattle.operations.specs.Marking.{decreasing_count};
ghost use Rattle.operations.specs.Score.{score_of};

use operations::Mark;
use std::cmp::Ordering;

// The number of a mark, as it is stored and printed.
pub fn number(mark: Mark) -> u8
    ensures { result ≡ mark_number mark }
{
    mark as u8
}

// Is it the number of a mark of the order?
pub fn is_decreasing(number: u8) -> bool
    ensures { result ≡ is_decreasing number }
{
    let (first, last) = (Mark::FallsByWeight as u8, Mark::FallsByLowTerms as u8);
    first <= number && number <= last || number == Mark::FallsByWrapping as u8
}

// 1 for the number of a mark of the order, 0 for another.
pub fn decreases(number: u8) -> usize
    ensures value { result ≡ decreasing_count (number ∷ []) }
    ensures upper_bound { result ≤ 1 }
{
    usize::from(is_decreasing(number))
}

// Stores a margin, where there is room for it.
pub fn put_margin(margins: &mut [i64], index: usize, margin: i64)
    ensures { margins.new ≡ set margins.old index margin }
{
    if index < margins.len() {
        margins[index] = margin;
    }
}

// The percentage of decreasing rules, to the nearest whole number, an exact half to the even one.
#[tactic(auto, unfolding(operations::specs::Score::score_of, operations::specs::Score::nearest))]
pub fn score(decreasing: usize, rules: usize) -> usize
    requires { decreasing < 1024 }
    ensures value { result ≡ score_of decreasing rules }
    ensures upper_bound { result < 1000000 }
{
    if rules == 0 {
        return 100;
    }
    let below = 100 * decreasing / rules;
    let left = 100 * decreasing % rules;
    match (2 * left).cmp(&rules) {
        Ordering::Less => below,
        Ordering::Greater => below + 1,
        Ordering::Equal => below + below % 2,
    }
}
