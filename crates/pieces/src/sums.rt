// The sum of some elements of some flattenings: its words put into a buffer, and how many they are.
ghost use Rattle.std.specs.Prelude.{ℕ, ◌≡◌, ◌+◌, ◌-◌, ◌*◌, ◌≤◌, length};
ghost use Rattle.symbols.specs.Table.{signature_of};
ghost use Rattle.pieces.specs.Buffer.{Put};
ghost use Rattle.pieces.specs.Sums.{sum_words, Masked};

use crate::buffer::Buffer;
use crate::elements::first_taken;
use equivalence::keys::Keyed;

// How many words the sum of the elements has that the mask takes of the flattenings for f of the n terms at i.
pub fn sum_size(term: &Keyed, f: u16, i: usize, mask: u16) -> usize
    ghost n: { ℕ }
    requires { Masked (signature_of term.now.table.now) f term.now.words.now i n mask }
    ensures value { result ≡ length (sum_words (signature_of term.now.table.now) f term.now.words.now i n mask) }
    ensures upper_bound { result ≤ 2 * (length term.now.words.now - i) }
{
    let mut at = i;
    let mut left = mask;
    let mut count = 0;
    while left > 0 {
        let (offset, rest) = first_taken(term, f, at, left);
        let size = term.size_at(offset);
        count += if rest > 0 { 1 + size } else { size };
        at = offset + size;
        left = rest;
    }
    count
}

// Puts its words.
pub fn put_sum(term: &Keyed, f: u16, i: usize, mask: u16, out: &mut Buffer)
    ghost n: { ℕ }
    requires masked { Masked (signature_of term.now.table.now) f term.now.words.now i n mask }
    requires room { out.old.count + length (sum_words (signature_of term.now.table.now) f term.now.words.now i n mask)
        ≤ 48 }
    ensures { Put out.old.words out.old.count (sum_words (signature_of term.now.table.now) f term.now.words.now i n
        mask) out.new.count out.new.words }
{
    let mut at = i;
    let mut left = mask;
    while left > 0 {
        let (offset, rest) = first_taken(term, f, at, left);
        if rest > 0 {
            out.push(f);
        }
        let end = offset + term.size_at(offset);
        out.extend(&term.words[offset..end]);
        at = end;
        left = rest;
    }
}
