// Two whole terms of equal weight with the same root.
ghost use Rattle.std.specs.Prelude.{◌≡◌, ◌<◌, length, get_or};
ghost use Rattle.equivalence.specs.Keys.{BothPrepared};
ghost use Rattle.equivalence.specs.Offsets.{alike_at};
ghost use Rattle.extensions.specs.Compared.{mark_or_none, root_at};
ghost use Rattle.reader.specs.Promise.{Decoded};

use equivalence::keys::{Keyed, Pair, prepare};
use extensions::Measured;
use format::MAX_NODES;
use operations::Mark;

// Two terms under a table, with the keys of their parts.
pub fn paired<'a>(
    table: &'a [u16],
    left: &'a [u16],
    left_keys: &'a [u64; MAX_NODES],
    right: &'a [u16],
    right_keys: &'a [u64; MAX_NODES],
) -> Pair<'a>
    requires { BothPrepared table.now left.now left_keys.now right.now right_keys.now }
    ensures table { result.left.table.now ≡ table.now }
    ensures left { result.left.words.now ≡ left.now }
    ensures right { result.right.words.now ≡ right.now }
{
    Pair {
        left: Keyed {
            table,
            words: left,
            keys: left_keys,
        },
        right: Keyed {
            table,
            words: right,
            keys: right_keys,
        },
    }
}

// Writes the keys of both terms, and tells whether they are equivalent. It is never inlined: with its body in them the
// callers clear the room for sums twice.
#[inline(never)]
pub fn prepare_both(
    table: &[u16],
    left: &[u16],
    left_keys: &mut [u64; MAX_NODES],
    right: &[u16],
    right_keys: &mut [u64; MAX_NODES],
) -> bool
    requires { Decoded table.now left.now right.now }
    ensures value { result ≡ alike_at table.now left.now 0 right.now 0 }
    ensures both_prepared { BothPrepared table.now left.now left_keys.new right.now right_keys.new }
{
    prepare(table, left, left_keys);
    prepare(table, right, right_keys);
    paired(table, left, left_keys, right, right_keys).equivalent(0, 0)
}

// The mark by the arguments of two whole terms with the same root, 3 to 6.
pub fn arguments_mark(terms: &Measured) -> Option<Mark>
    requires { (0 < length terms.now.pair.left.words.now) × (0 < length terms.now.pair.right.words.now)
        × (get_or terms.now.pair.left.words.now 0 0 ≡ get_or terms.now.pair.right.words.now 0 0) }
    ensures { mark_or_none result
        ≡ root_at terms.now.pair.left.table.now terms.now.pair.left.words.now 0 terms.now.pair.right.words.now 0 }
{
    let table = terms.pair.left.table;
    let f = terms.pair.left.words[0];
    let n = symbols::arity(table, f);
    if symbols::is_ac(table, f) {
        return terms.flattened(1, 1, f, n);
    }
    if terms.rows_greater(1, 1, n) {
        return Some(Mark::FallsByArguments);
    }
    None
}
