// The symbols of arity 1 that weigh 0, by their ranks.
#![tactic(auto)]

ghost use Rattle.std.specs.Prelude.{◌≡◌, MatchOption, ◌&&◌, ◌<◌, eqb};
ghost use Rattle.format.specs.Symbols.{outranks, first_outranked};
ghost use Rattle.symbols.specs.Table.{symbol_at, symbols_at};

use crate::word_at;

// Whether one of the first so many symbols has a higher rank.
fn is_outranked(table: &[u16], count: usize, rank: u16) -> bool
    requires { count < 256 }
    ensures { result ≡ outranks (symbols_at table.now 0 count) rank }
{
    for g in 0..count {
        if rank < word_at(table, 4 * g + 7) {
            return true;
        }
    }
    false
}

// Whether the symbol of that number has arity 1, weighs 0, and is outranked.
fn is_too_low(table: &[u16], count: usize, f: usize) -> bool
    requires { (count < 256) × (f < 256) }
    ensures { result ≡ (eqb (symbol_at table.now f).arity 1 && (eqb (symbol_at table.now f).weight 0
        && outranks (symbols_at table.now 0 count) (symbol_at table.now f).precedence)) }
{
    word_at(table, 4 * f + 4) % 8 == 1
        && word_at(table, 4 * f + 6) == 0
        && is_outranked(table, count, word_at(table, 4 * f + 7))
}

// The number of the first such symbol, if there is one.
pub fn first_outranked(table: &[u16], count: usize) -> Option<usize>
    requires { count < 256 }
    ensures { MatchOption result (first_outranked (symbols_at table.now 0 count) ≡ count)
        (λ f. (first_outranked (symbols_at table.now 0 count) ≡ f) × (f < count)) }
{
    for f in 0..count {
        if is_too_low(table, count, f) {
            return Some(f);
        }
    }
    None
}
