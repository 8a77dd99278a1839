// The elements of a flattening.
ghost use Rattle.std.specs.Prelude.{◌≡◌, ◌-◌, ◌^◌, ◌≤◌, ◌<◌, length, get_or};
ghost use Rattle.symbols.specs.Table.{signature_of};
ghost use Rattle.pieces.specs.Pieces.{elements_of};

use equivalence::keys::Keyed;
use equivalence::offsets::Offsets;

// The mask that takes all elements of the part at i for its root.
pub fn all_elements(term: &Keyed, i: usize) -> u16
    requires i_in_bounds { (i < length term.now.words.now) × (get_or term.now.words.now i 0 < 256) }
    requires i_len_bound { length (elements_of (signature_of term.now.table.now) term.now.words.now i) ≤ 15 }
    ensures value { result ≡ 2 ^ length (elements_of (signature_of term.now.table.now) term.now.words.now i) - 1 }
    ensures upper_bound { result < 65536 }
{
    let mut offsets = Offsets::empty();
    term.elements(term.words[i], i, 1, &mut offsets);
    (1u16 << offsets.count) - 1
}
