// A pattern's variable and the piece that it takes.
ghost use Rattle.std.specs.Prelude.{◌≤◌, ◌<◌, length, get_or};
ghost use Rattle.symbols.specs.Table.{signature_of};
ghost use Rattle.pieces.specs.Pieces.{piece_at};
ghost use Rattle.matching.specs.Agenda.{IsPending};
ghost use Rattle.matching.specs.Bindings.{AreBound, Takes};

use crate::patterns::occurs_before;
use crate::sought::Sought;
use format::FIRST_VARIABLE;
use pieces::bindings::Bindings;
use pieces::comparison::same_piece;
use pieces::elements::Piece;

// Binds the variable at the offset p of the pattern to a piece; where it occurs before p, tells whether the piece is
// the one that it is bound to.
pub fn bind(sought: &Sought, bindings: &mut Bindings, piece: Piece) -> bool
    requires are_bound { let s = sought.now in AreBound (signature_of s.term.table.now) s.term.words.now
        bindings.old.offsets bindings.old.masks }
    requires pending { let s = sought.now in IsPending (signature_of s.term.table.now) s.term.words.now piece.offset
        piece.mask }
    requires p_in_bounds { let s = sought.now in
        (s.p < length s.pattern.now) × (256 ≤ get_or s.pattern.now s.p 0) }
    ensures { let s = sought.now in Takes (signature_of s.term.table.now) s.term.words.now s.pattern.now s.p
        bindings.old.offsets bindings.old.masks
        (piece_at (signature_of s.term.table.now) s.term.words.now piece.offset piece.mask) result
        bindings.new.offsets bindings.new.masks }
{
    let word = sought.pattern[sought.p];
    let x = (word - FIRST_VARIABLE) as usize;
    if occurs_before(sought.pattern, word, sought.p) {
        return same_piece(&sought.term, bindings.get(x), piece);
    }
    bindings.set(x, piece);
    true
}
