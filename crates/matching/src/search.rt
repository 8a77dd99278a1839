// The search for a match along a pattern's words.
ghost use Rattle.std.specs.Prelude.{◌∷◌, ◌≡◌, true, ◌<◌, length, get_or};
ghost use Rattle.terms.specs.Signature.{symbol_of};
ghost use Rattle.symbols.specs.Table.{signature_of};
ghost use Rattle.pieces.specs.Pieces.{piece_at};
ghost use Rattle.matching.specs.Agenda.{IsPending, pending_at, KeptNodes};
ghost use Rattle.matching.specs.Search.{Searching, Searched, Dividing, Divided};

use crate::agenda::{NODES, Pending, first, push_sums, push_terms};
use crate::flattenings::all_elements;
use crate::nodes::Node;
use crate::sought::Sought;
use crate::variables::bind;
use format::FIRST_VARIABLE;
use pieces::bindings::Bindings;
use pieces::elements::Piece;
use pieces::masks::next_within;
use symbols::{arity, is_ac};

// Finds a match of the pattern's words from p on with the pieces that are pending.
#[cycle(divide_follow_follow_symbol)]
pub fn follow(
    sought: &Sought,
    bindings: &mut Bindings,
    nodes: &mut [Node; NODES],
    pending: Pending,
) -> bool
    requires searching { let s = sought.now in Searching (signature_of s.term.table.now) s.term.words.now s.pattern.now
        s.p bindings.old.offsets bindings.old.masks nodes.old pending.free pending.head pending.owed }
    ensures searched { let s = sought.now in Searched (signature_of s.term.table.now) s.term.words.now s.pattern.now
        s.p bindings.old.offsets bindings.old.masks
        (pending_at (signature_of s.term.table.now) s.term.words.now nodes.old pending.owed pending.head)
        result bindings.new.offsets bindings.new.masks }
    ensures kept_nodes { KeptNodes nodes.old pending.free nodes.new }
{
    if sought.p == sought.pattern.len() {
        return true;
    }
    if pending.owed == 0 {
        return false;
    }
    let (piece, rest) = first(nodes, pending);
    if sought.pattern[sought.p] < FIRST_VARIABLE {
        return follow_symbol(sought, piece, bindings, nodes, rest);
    }
    if bind(sought, bindings, piece) {
        return follow(&sought.next(), bindings, nodes, rest);
    }
    false
}

// The same where the word at p is a symbol, and a piece comes before those that are pending.
#[cycle(divide_follow_follow_symbol)]
fn follow_symbol(
    sought: &Sought,
    piece: Piece,
    bindings: &mut Bindings,
    nodes: &mut [Node; NODES],
    pending: Pending,
) -> bool
    requires searching { let s = sought.now in Searching (signature_of s.term.table.now) s.term.words.now s.pattern.now
        s.p bindings.old.offsets bindings.old.masks nodes.old pending.free pending.head pending.owed }
    requires pending { let s = sought.now in IsPending (signature_of s.term.table.now) s.term.words.now piece.offset
        piece.mask × (s.p < length s.pattern.now) × (get_or s.pattern.now s.p 0 < 256) }
    ensures searched { let s = sought.now in Searched (signature_of s.term.table.now) s.term.words.now s.pattern.now
        s.p bindings.old.offsets bindings.old.masks
        (piece_at (signature_of s.term.table.now) s.term.words.now piece.offset piece.mask
        ∷ (pending_at (signature_of s.term.table.now) s.term.words.now nodes.old pending.owed pending.head))
        result bindings.new.offsets bindings.new.masks }
    ensures kept_nodes { KeptNodes nodes.old pending.free nodes.new }
{
    let i = piece.offset;
    let word = sought.pattern[sought.p];
    if sought.term.words[i] != word {
        return false;
    }
    if is_ac(sought.term.table, word) {
        let all = if piece.mask == 0 {
            all_elements(&sought.term, i)
        } else {
            piece.mask
        };
        let sum = Piece {
            offset: i,
            mask: all,
        };
        return divide(sought, sum, next_within(all, all), bindings, nodes, pending);
    }
    let after = push_terms(
        sought.term.keys,
        i + 1,
        arity(sought.term.table, word),
        nodes,
        pending,
    );
    follow(&sought.next(), bindings, nodes, after)
}

// The same where the elements that a sum's mask takes are divided in two, by the masks from a down.
#[cycle(divide_follow_follow_symbol)]
fn divide(
    sought: &Sought,
    sum: Piece,
    a: u16,
    bindings: &mut Bindings,
    nodes: &mut [Node; NODES],
    pending: Pending,
) -> bool
    requires searching { let s = sought.now in Searching (signature_of s.term.table.now) s.term.words.now s.pattern.now
        s.p bindings.old.offsets bindings.old.masks nodes.old pending.free pending.head pending.owed }
    requires dividing { let s = sought.now in Dividing (signature_of s.term.table.now) s.term.words.now s.pattern.now
        s.p sum.offset sum.mask a }
    requires p_value { let s = sought.now in
        (symbol_of (signature_of s.term.table.now) (get_or s.pattern.now s.p 0)).ac ≡ true }
    ensures divided { let s = sought.now in Divided (signature_of s.term.table.now) s.term.words.now s.pattern.now s.p
        sum.offset sum.mask a bindings.old.offsets bindings.old.masks
        (pending_at (signature_of s.term.table.now) s.term.words.now nodes.old pending.owed pending.head)
        result bindings.new.offsets bindings.new.masks }
    ensures kept_nodes { KeptNodes nodes.old pending.free nodes.new }
{
    if a == 0 {
        return false;
    }
    let after = push_sums(&sought.term, sum.offset, a, sum.mask - a, nodes, pending);
    if follow(&sought.next(), bindings, nodes, after) {
        return true;
    }
    divide(
        sought,
        sum,
        next_within(a, sum.mask),
        bindings,
        nodes,
        pending,
    )
}
