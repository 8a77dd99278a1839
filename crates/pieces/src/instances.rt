// Pieces and instances of a rule's side, put into a buffer.
ghost use Rattle.std.specs.Prelude.{◌+◌, ◌≤◌, length};
ghost use Rattle.terms.specs.Words.{words as wordsOfTerm};
ghost use Rattle.symbols.specs.Table.{signature_of};
ghost use Rattle.pieces.specs.Buffer.{Put};
ghost use Rattle.pieces.specs.Pieces.{piece_at, IsPiece, instance_words, Filled};

use crate::bindings::Bindings;
use crate::buffer::Buffer;
use crate::elements::Piece;
use crate::sums::put_sum;
use equivalence::keys::Keyed;
use format::FIRST_VARIABLE;

// Puts the words of a piece.
pub fn put_piece(term: &Keyed, piece: Piece, out: &mut Buffer)
    requires piece { IsPiece (signature_of term.now.table.now) term.now.words.now piece.offset piece.mask }
    requires room { out.old.count + length (wordsOfTerm (piece_at (signature_of term.now.table.now) term.now.words.now
        piece.offset piece.mask)) ≤ 48 }
    ensures { Put out.old.words out.old.count (wordsOfTerm (piece_at (signature_of term.now.table.now)
        term.now.words.now piece.offset piece.mask)) out.new.count out.new.words }
{
    let i = piece.offset;
    if piece.mask == 0 {
        let end = i + term.size_at(i);
        out.extend(&term.words[i..end]);
    } else {
        put_sum(term, term.words[i], i, piece.mask, out);
    }
}

// Puts the instance of a pattern: a symbol stays, and a variable's piece is put for it.
pub fn put_instance(term: &Keyed, bindings: &Bindings, pattern: &[u16], out: &mut Buffer)
    requires filled { Filled (signature_of term.now.table.now) term.now.words.now bindings.now.offsets
        bindings.now.masks pattern.now }
    requires room { out.old.count + length (instance_words (signature_of term.now.table.now) term.now.words.now
        bindings.now.offsets bindings.now.masks pattern.now) ≤ 48 }
    ensures { Put out.old.words out.old.count (instance_words (signature_of term.now.table.now) term.now.words.now
        bindings.now.offsets bindings.now.masks pattern.now) out.new.count out.new.words }
{
    for &word in pattern {
        if word < FIRST_VARIABLE {
            out.push(word);
        } else {
            let piece = bindings.get((word - FIRST_VARIABLE) as usize);
            put_piece(term, piece, out);
        }
    }
}
