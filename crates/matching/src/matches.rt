// A match of a whole pattern.
ghost use Rattle.std.specs.Prelude.{◌<◌, length};
ghost use Rattle.symbols.specs.Table.{signature_of};
ghost use Rattle.matching.specs.Bindings.{Matching, AreBound};
ghost use Rattle.matching.specs.Search.{calls_for, Found};

use crate::agenda::{NODES, Pending, push};
use crate::nodes::Node;
use crate::search::follow;
use crate::sought::Sought;
use equivalence::keys::Keyed;
use pieces::bindings::Bindings;
use pieces::elements::Piece;

// Finds a match of a pattern with the part at i.
pub fn find(term: &Keyed, pattern: &[u16], i: usize, bindings: &mut Bindings) -> bool
    requires cases { Matching (signature_of term.now.table.now) term.now.words.now term.now.keys.now pattern.now }
    requires are_bound { AreBound (signature_of term.now.table.now) term.now.words.now bindings.old.offsets
        bindings.old.masks }
    requires i_in_bounds { (i < length term.now.words.now)
        × (calls_for (signature_of term.now.table.now) pattern.now < 32) }
    ensures { Found (signature_of term.now.table.now) term.now.words.now pattern.now i result bindings.new.offsets
        bindings.new.masks }
{
    let mut nodes = [Node::NONE; NODES];
    let none = Pending {
        free: 0,
        head: 0,
        owed: 0,
    };
    let pending = push(&mut nodes, none, Piece { offset: i, mask: 0 });
    let sought = Sought {
        term: *term,
        pattern,
        p: 0,
    };
    follow(&sought, bindings, &mut nodes, pending)
}
