// Elements of a flattening that a mask takes, and the piece that they make up.
ghost use Rattle.std.specs.Prelude.{ℕ, ◌<◌};
ghost use Rattle.symbols.specs.Table.{signature_of};
ghost use Rattle.pieces.specs.Sums.{Masked, IsTaken};
ghost use Rattle.pieces.specs.Pieces.{IsPiece, IsNormal};

use crate::masks::next_within;
use equivalence::keys::Keyed;

// A whole part, where the mask is 0, or the sum of the elements that the mask takes of the flattening there.
#[derive(Clone, Copy)]
pub struct Piece {
    pub offset: usize,
    pub mask: u16,
}

// The offset of the first element that the mask takes of the flattenings for f of some terms at i, and the mask that
// takes the others of those after it.
pub fn first_taken(term: &Keyed, f: u16, i: usize, mask: u16) -> (usize, u16)
    requires masked { (n : ℕ) × Masked (signature_of term.now.table.now) f term.now.words.now i n mask }
    requires some { 0 < mask }
    ensures { (n : ℕ) → Masked (signature_of term.now.table.now) f term.now.words.now i n mask →
        IsTaken (signature_of term.now.table.now) f term.now.words.now i n mask result.0 result.1 }
{
    let mut at = i;
    let mut left = mask;
    'walk: loop {
        if term.words[at] == f {
            at += 1;
        } else if left % 2 == 1 {
            return (at, left / 2);
        } else {
            at += term.size_at(at);
            left /= 2;
        }
    }
}

// The piece of the elements that a mask takes: one element is a whole part.
pub fn piece_of(term: &Keyed, i: usize, mask: u16) -> Piece
    requires piece { IsPiece (signature_of term.now.table.now) term.now.words.now i mask }
    requires some { 0 < mask }
    ensures { IsNormal (signature_of term.now.table.now) term.now.words.now i mask result.offset result.mask }
{
    if next_within(mask, mask) == 0 {
        let (offset, _) = first_taken(term, term.words[i], i, mask);
        return Piece { offset, mask: 0 };
    }
    Piece { offset: i, mask }
}
