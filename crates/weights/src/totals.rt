// The sums over whole terms: weights, the variable test and the margin.
ghost use Rattle.std.specs.Prelude.{List, ◌≡◌, ℕ, ◌≤◌, ◌<◌, IfSome};
ghost use Rattle.terms.specs.Signature.{Signature, Ones};
ghost use Rattle.terms.specs.Term.{Term, variable_count};
ghost use Rattle.terms.specs.Words.{term_of};
ghost use Rattle.terms.specs.Order.{margin as marginOf};
ghost use Rattle.terms.specs.Oftener.{first_oftener};
ghost use Rattle.weights.specs.Totals.{added, taken, CanAdd, CanTake, Counted, Counts, Totalled, oftener_number};

use crate::digits::first_greater;
use std::ops::{Add, Sub};

// The sums over some words: weights, and the occurrences of the variables 0 to 7 and 8 to 15 as digits.
#[derive(Clone, Copy)]
pub struct Totals {
    pub weight: u64,
    pub low: u64,
    pub high: u64,
}

impl Totals {
    // The sums over no words.
    pub const NONE: Totals = Totals {
        weight: 0,
        low: 0,
        high: 0,
    };

    // The first variable that occurs oftener in the term with the right totals. It goes up from variable 0 by eight, and
    // stops where one is found.
    pub fn first_oftener(self, right: Totals) -> Option<usize>
        requires { Counts self × Counts right }
        ensures value { (σ : Signature) → Ones σ → (s t : Term) → Counted s self → Counted t right →
            oftener_number result ≡ first_oftener σ s t }
        ensures below { IfSome result (λ x. x < variable_count) }
    {
        if let Some(low) = first_greater(self.low, right.low) {
            return Some(low);
        }
        let high = first_greater(self.high, right.high)?;
        Some(8 + high)
    }

    // The weight minus the right one.
    pub fn margin(self, right: Totals) -> i64
        requires { (self.weight ≤ 8388608) × (right.weight ≤ 8388608) }
        ensures { (σ : Signature) (s t : List ℕ) → Totalled σ s self → Totalled σ t right →
            result ≡ marginOf σ (term_of σ s) (term_of σ t) }
    {
        self.weight as i64 - right.weight as i64
    }
}

impl Add for Totals {
    type Output = Totals;

    ghost can_add = { CanAdd };

    ghost add_gives = { λ a b r. r ≡ added a b };

    fn add(self, more: Totals) -> Totals {
        Totals {
            weight: self.weight + more.weight,
            low: self.low + more.low,
            high: self.high + more.high,
        }
    }
}

impl Sub for Totals {
    type Output = Totals;

    ghost can_sub = { CanTake };

    ghost sub_gives = { λ a b r. r ≡ taken a b };

    fn sub(self, rest: Totals) -> Totals {
        Totals {
            weight: self.weight - rest.weight,
            low: self.low - rest.low,
            high: self.high - rest.high,
        }
    }
}
