// Lists of offsets of parts of a term.
ghost use Rattle.std.specs.Prelude.{◌≡◌, ◌+◌, ◌-◌, ◌≤◌, ◌<◌, length, get_or, take, slice_set};
ghost use Rattle.equivalence.specs.Offsets.{deleted};

use crate::MAX_ELEMENTS;

// Offsets of parts of a term: the first `count` of 64 bytes.
#[derive(Drop)]
pub struct Offsets {
    pub bytes: [u8; MAX_ELEMENTS],
    pub count: usize,
    pub ghost room: { length bytes ≡ 64 },
    pub ghost few: { count ≤ 64 },
}

impl Offsets {
    pub fn empty() -> Offsets
        ensures { result.count ≡ 0 }
    {
        Offsets {
            bytes: [0; MAX_ELEMENTS],
            count: 0,
        }
    }

    // The offset at index k.
    pub fn get(&self, k: usize) -> usize
        requires { k < self.now.count }
        ensures { (result ≡ get_or self.now.bytes k 0) × (result < 256) }
    {
        self.bytes[k] as usize
    }

    // Puts an offset at the end.
    pub fn push(&mut self, offset: usize)
        requires { (self.old.count < 64) × (offset < 256) }
        ensures bytes_after { self.new.bytes ≡ slice_set self.old.bytes self.old.count offset }
        ensures count_after { self.new.count ≡ self.old.count + 1 }
    {
        self.bytes[self.count] = offset as u8;
        self.count += 1;
    }

    // Takes out the offset at index k.
    pub fn delete(&mut self, k: usize)
        requires { k < self.old.count }
        ensures offsets_after { take self.new.count self.new.bytes ≡ deleted k (take self.old.count self.old.bytes) }
        ensures count_after { self.new.count ≡ self.old.count - 1 }
    {
        self.bytes.copy_within(k + 1..self.count, k);
        self.count -= 1;
    }
}
