// The bits ahead of a cursor: a number of 64 bits that nodes are cut from.
ghost use Rattle.std.specs.Prelude.{◌≡◌, List, ℕ, ◌+◌, ◌*◌, ◌/◌, ◌^◌, ◌<◌, ◌≤◌, length, get_or};
ghost use Rattle.bits.specs.Cursor.{node_width, four, Ahead};

use crate::Book;

// How many numbers of four bytes there are.
const FOUR_BYTES: u64 = 0x1_0000_0000;

// The bits from an offset on that are at hand: the first ones of a number, and how many.
#[derive(Clone, Copy)]
pub struct Window {
    pub bits: u64,
    pub count: usize,
}

// The four bytes from an index on as one number.
fn four_at(book: &[u8], i: usize) -> u64
    requires { i + 4 ≤ length book.now }
    ensures { (result ≡ four book.now i) × (result < 2 ^ 32) }
{
    let two = u64::from(book[i]) * 256 + u64::from(book[i + 1]);
    (two * 256 + u64::from(book[i + 2])) * 256 + u64::from(book[i + 3])
}

impl Window {
    // A window without bits.
    pub fn empty() -> Window
        ensures { (bytes : List ℕ) (at : ℕ) → at ≤ 8 * length bytes → Ahead bytes at result }
    {
        Window { bits: 0, count: 0 }
    }

    // The window at an offset, with more bits where it has fewer than nine and eight bytes are left to take them from.
    pub fn refilled(self, book: Book, at: usize) -> Window
        requires { Ahead book.bytes.now at self }
        ensures { Ahead book.entry.bytes.now at result }
    {
        if 9 <= self.count {
            return self;
        }
        let index = at / 8;
        if book.bytes.len() < index + 8 {
            return self;
        }
        let eight = four_at(book.bytes, index) * FOUR_BYTES + four_at(book.bytes, index + 4);
        Window {
            bits: eight << (at % 8),
            count: 64 - at % 8,
        }
    }

    // The window past the node that it begins with.
    pub fn past(self) -> Window
        requires { 9 ≤ self.count }
        ensures { (bytes : List ℕ) (at : ℕ) → Ahead bytes at self → Ahead bytes (at + node_width (self.bits / 2 ^ 55)) result }
    {
        let width = 9 - 4 * (self.bits >> 63) as usize;
        Window {
            bits: self.bits << width,
            count: self.count - width,
        }
    }
}
