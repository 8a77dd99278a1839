// Fields and nodes cut from their bytes.
ghost use Rattle.std.specs.Prelude.{◌≡◌, ◌+◌, ◌-◌, ◌*◌, ◌/◌, ◌%◌, ◌^◌, ◌<◌, ◌≤◌, get_or};
ghost use Rattle.bits.specs.Cursor.{node_width, node_word};

use crate::{BitCursor, Node, Window};

// The byte at an index, and 0 past the end.
pub fn byte_at(book: &[u8], index: usize) -> u32
    ensures { (result ≡ get_or book.now index 0) × (result < 256) }
{
    book.get(index).map_or(0, |&byte| u32::from(byte))
}

// The three bytes from an index on as one number, those past the end being 0.
pub fn gather(book: &[u8], index: usize) -> u32
    requires { index < 2 ^ 62 }
    ensures value { result
        ≡ get_or book.now index 0 * 65536
        + get_or book.now (index + 1) 0 * 256
        + get_or book.now (index + 2) 0 }
    ensures upper_bound { result < 2 ^ 24 }
{
    byte_at(book, index) * 65536 + byte_at(book, index + 1) * 256 + byte_at(book, index + 2)
}

// The field of that width at an offset, by the three bytes from the offset's byte on.
pub fn field_of(three: u32, at: usize, width: usize) -> (usize, BitCursor)
    requires { (width ≤ 16) × (at < 2 ^ 62) × (three < 2 ^ 24) }
    ensures { result ≡ (three / 2 ^ (24 - at % 8 - width) % 2 ^ width, record { at = at + width }) }
{
    let cursor = BitCursor { at: at + width };
    let value = ((three >> (24 - at % 8 - width)) % (1u32 << width)) as usize;
    (value, cursor)
}

// The width of a node that begins with these nine bits.
pub fn node_width(nine: u32) -> usize
    ensures { result ≡ node_width nine }
{
    if nine < 256 { 9 } else { 5 }
}

// The node at an offset that begins with these nine bits, the first of which is its tag, with the window past it. A
// variable leaves the last four unused. There is no branch, since none could foresee which of the two a node is.
pub fn node_of(nine: u32, tag: u32, at: usize, window: Window) -> Node
    requires { (nine < 512) × (tag ≡ nine / 256) × (at < 2 ^ 62) }
    ensures { result
        ≡ record { word = node_word nine; cursor = record { at = at + node_width nine }; window = window } }
{
    let unused = 4 * tag;
    let cursor = BitCursor {
        at: at + 9 - unused as usize,
    };
    Node {
        word: ((nine >> unused) + 240 * tag) as usize,
        cursor,
        window,
    }
}
