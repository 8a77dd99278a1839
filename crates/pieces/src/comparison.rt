// Whether two pieces are the same, word by word.
ghost use Rattle.std.specs.Prelude.{◌≤◌, length};
ghost use Rattle.terms.specs.Words.{words as wordsOfTerm};
ghost use Rattle.symbols.specs.Table.{signature_of};
ghost use Rattle.pieces.specs.Buffer.{Same};
ghost use Rattle.pieces.specs.Pieces.{piece_at, IsPiece};

use crate::buffer::Buffer;
use crate::elements::Piece;
use crate::instances::put_piece;
use equivalence::keys::Keyed;

// Are the words of two pieces the same?
pub fn same_piece(term: &Keyed, piece: Piece, other: Piece) -> bool
    requires piece { IsPiece (signature_of term.now.table.now) term.now.words.now piece.offset piece.mask }
    requires piece_2 { IsPiece (signature_of term.now.table.now) term.now.words.now other.offset other.mask }
    requires piece_len_bound { length (wordsOfTerm (piece_at (signature_of term.now.table.now) term.now.words.now
        piece.offset piece.mask)) ≤ 48 }
    requires other_len_bound { length (wordsOfTerm (piece_at (signature_of term.now.table.now) term.now.words.now
        other.offset other.mask)) ≤ 48 }
    ensures { Same result
        (wordsOfTerm (piece_at (signature_of term.now.table.now) term.now.words.now piece.offset piece.mask))
        (wordsOfTerm (piece_at (signature_of term.now.table.now) term.now.words.now other.offset other.mask)) }
{
    let mut left = Buffer::empty();
    let mut right = Buffer::empty();
    put_piece(term, piece, &mut left);
    put_piece(term, other, &mut right);
    left.as_slice() == right.as_slice()
}
