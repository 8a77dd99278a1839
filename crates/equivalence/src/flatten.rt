// The elements of flattenings, listed by their offsets.
ghost use Rattle.std.specs.Prelude.{◌≡◌, ◌≤◌, ◌<◌, length};
ghost use Rattle.symbols.specs.Table.{signature_of};
ghost use Rattle.subterms.specs.Parts.{elements_at, Stands};
ghost use Rattle.equivalence.specs.Offsets.{AtOffsets};

use crate::keys::Keyed;
use crate::offsets::Offsets;
use symbols::arity;

impl Keyed<'_> {
    // Lists the offsets of the elements of the flattenings for f of the n terms at i; what the list had goes.
    pub fn elements(&self, f: u16, i: usize, n: usize, offsets: &mut Offsets)
        requires f_bound { f < 256 }
        requires stands { Stands (signature_of self.now.table.now) self.now.words.now i n }
        requires n_len_bound { length (elements_at (signature_of self.now.table.now) f self.now.words.now i n) ≤ 64 }
        ensures { AtOffsets (signature_of self.now.table.now) self.now.words.now offsets.new.bytes offsets.new.count
            (elements_at (signature_of self.now.table.now) f self.now.words.now i n) }
    {
        offsets.count = 0;
        let inner = arity(self.table, f);
        let mut at = i;
        let mut owed = n;
        while owed > 0 {
            if self.words[at] == f {
                at += 1;
                owed = inner + (owed - 1);
            } else {
                offsets.push(at);
                at += self.size_at(at);
                owed -= 1;
            }
        }
    }
}
