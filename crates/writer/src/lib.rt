// Writing fields into bytes, most significant bit first.
#![tactic(auto)]

ghost use Rattle.std.specs.Prelude.{◌≡◌, List, ◌++◌, ℕ, ◌+◌, ◌*◌, ◌/◌, ◌%◌, ◌^◌, ◌<◌, ◌≤◌, length, take};
ghost use Rattle.std.proofs.lemmas.List.Edits.{sets};
ghost use Rattle.format.specs.Packing.{bits_of, bytes_of};
ghost use Rattle.writer.specs.Writer.{Writes, byte_before, eight_bytes};

// The bytes stored so far, and the bits after them: the last ones of a number, and how many. What stands before them in
// the number is of no account, so that nothing need be taken off when they are stored. That at most 64 bits wait is no
// ghost field, since one clause alone asks it.
#[derive(Clone, Copy)]
pub struct BitWriter {
    pub stored: usize,
    pub pending: u64,
    pub count: usize,
}

// The last width bits of a value.
pub fn last_bits(value: u16, width: usize) -> u16
    requires { width ≤ 16 }
    ensures { (result ≡ value % 2 ^ width) × (result < 2 ^ width) }
{
    (value as u64 % (1u64 << width)) as u16
}

// Sets the eight bytes from byte i on, the most significant first.
#[tactic(auto, using(crate::proofs::WriterLaws::byte_laws))]
fn put_eight(bytes: &mut [u8], i: usize, value: u64)
    requires { i + 8 ≤ length bytes.old }
    ensures { bytes.new ≡ sets bytes.old i (eight_bytes value) }
{
    bytes[i..i + 8].copy_from_slice(&value.to_be_bytes());
}

// Sets as many bytes from byte i on, the first ones of those eight.
#[tactic(auto, using(crate::proofs::WriterLaws::byte_laws))]
fn put_first(bytes: &mut [u8], i: usize, value: u64, n: usize)
    requires { (n ≤ 8) × (i + n ≤ length bytes.old) }
    ensures { bytes.new ≡ sets bytes.old i (take n (eight_bytes value)) }
{
    bytes[i..i + n].copy_from_slice(&value.to_be_bytes()[..n]);
}

impl BitWriter {
    // A value of so many bits after those that wait.
    pub fn push(self, width: usize, value: u16) -> BitWriter
        requires { (width ≤ 16) × (value < 2 ^ width) × (self.count + width ≤ 64) }
        ensures stored_value { (result.stored ≡ self.stored) × (result.count ≡ self.count + width) }
        ensures by_index { (bits bytes : List ℕ) → Writes bits self bytes → Writes (bits ++ bits_of width value) result bytes }
    {
        BitWriter {
            stored: self.stored,
            pending: (self.pending << width) + value as u64,
            count: self.count + width,
        }
    }

    // Stores the whole bytes of the bits that wait. Where there is room for eight bytes they are stored at once, those
    // after the whole ones too, without a branch on how many they are.
    pub fn flush(self, bytes: &mut [u8]) -> BitWriter
        requires { (self.count ≤ 64) × (8 * self.stored + self.count ≤ 8 * length bytes.old) }
        ensures count_bound { (result.count < 8) × (8 * result.stored + result.count ≡ 8 * self.stored + self.count) }
        ensures by_index { (bits : List ℕ) → Writes bits self bytes.old → Writes bits result bytes.new }
    {
        if self.count == 0 {
            return self;
        }
        let front = self.pending << (64 - self.count);
        let whole = self.count / 8;
        if bytes.len() < self.stored + 8 {
            put_first(bytes, self.stored, front, whole);
        } else {
            put_eight(bytes, self.stored, front);
        }
        BitWriter {
            stored: self.stored + whole,
            pending: self.pending,
            count: self.count % 8,
        }
    }

    // Stores the bits that wait, with zeros up to a whole byte, as the last bytes.
    pub fn finish(self, bytes: &mut [u8])
        requires { (self.count ≤ 56) × (8 * self.stored + self.count ≤ 8 * length bytes.old) }
        ensures { (bits : List ℕ) → Writes bits self bytes.old →
            length bytes.old ≡ (length bits + 7) / 8 → bytes.new ≡ bytes_of bits }
    {
        let zeros = (8 - self.count % 8) % 8;
        self.push(zeros, 0).flush(bytes);
    }
}
