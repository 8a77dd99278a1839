// The pieces that are yet to be matched, as nodes that tell which one is after each. Nodes are never changed, so what
// was pending before a choice is pending after it.
ghost use Rattle.std.specs.Prelude.{List, [], ◌∷◌, ◌≡◌, true, ℕ, ◌+◌, ◌-◌, ◌≤◌, ◌<◌, length, get_or};
ghost use Rattle.terms.specs.Signature.{Signature, symbol_of};
ghost use Rattle.symbols.specs.Table.{signature_of};
ghost use Rattle.subterms.specs.Parts.{parts_at, Stands};
ghost use Rattle.equivalence.specs.Keys.{Prepared};
ghost use Rattle.pieces.specs.Pieces.{piece_at, IsPiece};
ghost use Rattle.matching.specs.Agenda.{InKeys, offset_in, mask_in, next_in, Pushed, Extended};

use crate::nodes::Node;
use equivalence::keys::{Keyed, size_at};
use format::MAX_NODES;
use pieces::elements::{Piece, piece_of};

// How many nodes an agenda has.
pub const NODES: usize = 32;

// What is pending: so many nodes from the index head on, below the first index that is free.
#[derive(Clone, Copy)]
pub struct Pending {
    pub free: usize,
    pub head: usize,
    pub owed: usize,
    pub ghost fits: { free ≤ 32 },
    pub ghost first: { head < 65536 },
    pub ghost few: { owed ≤ free },
}

// The first piece that is pending, and what is pending after it.
pub fn first(nodes: &[Node; NODES], pending: Pending) -> (Piece, Pending)
    requires { (0 < pending.owed) × (pending.head < 32) }
    ensures piece { (result.0.offset ≡ offset_in nodes.now pending.head)
        × (result.0.mask ≡ mask_in nodes.now pending.head) }
    ensures pending_after { (result.1.free ≡ pending.free) × (result.1.head ≡ next_in nodes.now pending.head)
        × (result.1.owed ≡ pending.owed - 1) }
{
    let node = nodes[pending.head];
    let piece = Piece {
        offset: node.offset as usize,
        mask: node.mask,
    };
    let rest = Pending {
        free: pending.free,
        head: node.next as usize,
        owed: pending.owed - 1,
    };
    (piece, rest)
}

// Puts a piece before what is pending.
pub fn push(nodes: &mut [Node; NODES], pending: Pending, piece: Piece) -> Pending
    requires { (pending.free < 32) × (piece.offset < 65536) }
    ensures pushed { Pushed nodes.old pending.free piece.offset piece.mask pending.head nodes.new }
    ensures pending_after { (result.free ≡ pending.free + 1) × (result.head ≡ pending.free)
        × (result.owed ≡ pending.owed + 1) }
{
    let free = pending.free;
    nodes[free] = Node {
        offset: piece.offset as u16,
        mask: piece.mask,
        next: pending.head as u16,
    };
    Pending {
        free: free + 1,
        head: free,
        owed: pending.owed + 1,
    }
}

// Puts the n terms at i, whose sizes the keys tell, before what is pending.
pub fn push_terms(
    keys: &[u64; MAX_NODES],
    i: usize,
    n: usize,
    nodes: &mut [Node; NODES],
    pending: Pending,
) -> Pending
    requires in_keys { InKeys keys.now i n }
    requires room { pending.free + n ≤ 32 }
    ensures extended { (σ : Signature) (ws : List ℕ) → Prepared σ ws keys.now → Stands σ ws i n →
        Extended σ ws nodes.old pending.free n pending.head nodes.new result.head (parts_at σ ws i n) }
    ensures nodes_len { length nodes.new ≡ 32 }
    ensures pending_after { (result.free ≡ pending.free + n) × (result.owed ≡ n + pending.owed) }
{
    if n == 0 {
        return pending;
    }
    let rest = push_terms(keys, i + size_at(keys, i), n - 1, nodes, pending);
    push(nodes, rest, Piece { offset: i, mask: 0 })
}

// Puts two pieces of the flattening at i, by their masks, before what is pending.
pub fn push_sums(
    term: &Keyed,
    i: usize,
    mask: u16,
    rest: u16,
    nodes: &mut [Node; NODES],
    pending: Pending,
) -> Pending
    requires piece { IsPiece (signature_of term.now.table.now) term.now.words.now i mask
        × IsPiece (signature_of term.now.table.now) term.now.words.now i rest × (0 < mask) × (0 < rest)
        × ((symbol_of (signature_of term.now.table.now) (get_or term.now.words.now i 0)).ac ≡ true) }
    requires room { pending.free + 2 ≤ 32 }
    ensures extended { Extended (signature_of term.now.table.now) term.now.words.now nodes.old pending.free 2
        pending.head nodes.new result.head
        (piece_at (signature_of term.now.table.now) term.now.words.now i mask
        ∷ (piece_at (signature_of term.now.table.now) term.now.words.now i rest ∷ [])) }
    ensures pending_after { (result.free ≡ pending.free + 2) × (result.owed ≡ 2 + pending.owed) }
{
    let last = piece_of(term, i, rest);
    let after = push(nodes, pending, last);
    let first = piece_of(term, i, mask);
    push(nodes, after, first)
}
