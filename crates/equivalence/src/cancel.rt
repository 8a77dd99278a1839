// The cancelling of AC-equivalent pairs.
ghost use Rattle.symbols.specs.Table.{signature_of};
ghost use Rattle.equivalence.specs.Offsets.{AtOffsets, OffsetsIn, left_at};

use crate::keys::Pair;
use crate::offsets::Offsets;

impl Pair<'_> {
    // Cancels equivalent terms, one for one; what is left stays in both lists.
    #[inline]
    pub fn cancel(&self, left: &mut Offsets, right: &mut Offsets)
        requires offsets_in { OffsetsIn self.now.left.table.now self.now.left.words.now left.old.bytes left.old.count }
        requires offsets_in_2 { OffsetsIn self.now.left.table.now self.now.right.words.now right.old.bytes
            right.old.count }
        ensures offsets { AtOffsets (signature_of self.now.left.table.now) self.now.left.words.now left.new.bytes
            left.new.count
            (left_at self.now.left.table.now self.now.left.words.now left.old.bytes left.old.count
            self.now.right.words.now right.old.bytes right.old.count).left }
        ensures offsets_2 { AtOffsets (signature_of self.now.left.table.now) self.now.right.words.now right.new.bytes
            right.new.count
            (left_at self.now.left.table.now self.now.left.words.now left.old.bytes left.old.count
            self.now.right.words.now right.old.bytes right.old.count).right }
    {
        let n = left.count;
        left.count = 0;
        for k in 0..n {
            let i = left.bytes[k] as usize;
            match self.partner(i, right) {
                Some(found) => right.delete(found),
                None => left.push(i),
            }
        }
    }
}
