// How many words a piece has, and an instance of a rule's side.
ghost use Rattle.std.specs.Prelude.{◌≡◌, ◌*◌, ◌≤◌, length};
ghost use Rattle.terms.specs.Words.{words as wordsOfTerm};
ghost use Rattle.symbols.specs.Table.{signature_of};
ghost use Rattle.pieces.specs.Pieces.{piece_at, IsPiece, Filled, instance_words};

use crate::bindings::Bindings;
use crate::elements::Piece;
use crate::sums::sum_size;
use equivalence::keys::Keyed;
use format::FIRST_VARIABLE;

// The words of a piece.
pub fn piece_size(term: &Keyed, piece: Piece) -> usize
    requires { IsPiece (signature_of term.now.table.now) term.now.words.now piece.offset piece.mask }
    ensures value { result ≡ length (wordsOfTerm (piece_at (signature_of term.now.table.now) term.now.words.now
        piece.offset piece.mask)) }
    ensures upper_bound { result ≤ 256 }
{
    if piece.mask == 0 {
        return term.size_at(piece.offset);
    }
    sum_size(term, term.words[piece.offset], piece.offset, piece.mask)
}

// The words of the instance of a pattern.
pub fn instance_size(term: &Keyed, bindings: &Bindings, pattern: &[u16]) -> usize
    requires { Filled (signature_of term.now.table.now) term.now.words.now bindings.now.offsets bindings.now.masks
        pattern.now }
    ensures value { result ≡ length (instance_words (signature_of term.now.table.now) term.now.words.now
        bindings.now.offsets bindings.now.masks pattern.now) }
    ensures upper_bound { result ≤ 256 * length pattern.now }
{
    let mut count = 0;
    for &word in pattern {
        count += if word < FIRST_VARIABLE {
            1
        } else {
            piece_size(term, bindings.get((word - FIRST_VARIABLE) as usize))
        };
    }
    count
}
