// The bit cursor: each of its methods hands back a field or a node of a packed file, and the cursor moved past it.
#![tactic(auto)]

ghost use Rattle.std.specs.Prelude.{◌≡◌, ℕ, ◌+◌, ◌/◌, ◌^◌, ◌≤◌, length};
ghost use Rattle.format.specs.Reading.{bit_field, is_padding, bit_source};
ghost use Rattle.answers.specs.Answer.{reading, Below};
ghost use Rattle.bits.specs.Cursor.{told, node_reading, NodeMoved, Ahead};

use crate::cut::{byte_at, field_of, node_of};
use answers::Fault;
use format::ErrorCode;

mod book;
mod cut;
mod window;

pub use crate::book::Book;
pub use crate::window::Window;

// Where reading stands: an offset in bits.
#[derive(Clone, Copy)]
pub struct BitCursor {
    pub at: usize,
}

// A node's word, the cursor moved past the node, and the window there.
#[derive(Clone, Copy)]
pub struct Node {
    pub word: usize,
    pub cursor: BitCursor,
    pub window: Window,
}

// What was read where an answer tells an offset: the cursor stands there.
pub fn moved<F>(answer: Result<(usize, usize), F>) -> Result<(usize, BitCursor), F>
    ensures { told result ≡ answer }
{
    match answer {
        Ok((value, next)) => Ok((value, BitCursor { at: next })),
        Err(fault) => Err(fault),
    }
}

impl BitCursor {
    // The field of that width here, where fewer than three bytes are left.
    fn late_field(self, book: Book, width: usize) -> Result<(usize, BitCursor), Fault>
        requires { width ≤ 16 }
        ensures result_value { reading (told result) ≡ bit_field book.entry.bytes.now width self.at }
        ensures below { Below (2 ^ width) (told result) }
    {
        let at = self.at;
        let code = ErrorCode::FieldMissing;
        let index = at / 8;
        if book.bytes.len() < index + (at % 8 + width + 7) / 8 {
            return Err(Fault { code, offset: at });
        }
        Ok(field_of(crate::cut::gather(book.bytes, index), at, width))
    }

    // The field of that width here. Where three bytes are left its bits lie in them, and nothing else is tested.
    pub fn field(self, book: Book, width: usize) -> Result<(usize, BitCursor), Fault>
        requires { width ≤ 16 }
        ensures result_value { reading (told result) ≡ bit_field book.entry.bytes.now width self.at }
        ensures below { Below (2 ^ width) (told result) }
    {
        let bytes = book.bytes;
        let i = self.at / 8;
        if bytes.len() <= i + 2 {
            return self.late_field(book, width);
        }
        let three = bytes[i] as u32 * 65536 + bytes[i + 1] as u32 * 256 + bytes[i + 2] as u32;
        Ok(field_of(three, self.at, width))
    }

    // The node here, in the last byte or past it.
    fn late_node(self, book: Book) -> Result<Node, Fault>
        requires { length book.bytes.now ≤ self.at / 8 + 1 }
        ensures result_value { node_reading self.at result ≡ (bit_source book.entry.bytes.now).node self.at }
        ensures node_moved { NodeMoved book.entry.bytes.now result }
    {
        let at = self.at;
        let code = ErrorCode::FieldMissing;
        let end = 8 * book.bytes.len();
        if end <= at {
            return Err(Fault { code, offset: at });
        }
        let nine = ((byte_at(book.bytes, at / 8) * 256) >> (7 - at % 8)) % 512;
        if end - at < crate::cut::node_width(nine) {
            let offset = at + 1;
            return Err(Fault { code, offset });
        }
        Ok(node_of(nine, nine / 256, at, Window::empty()))
    }

    // The node here, none of its bits at hand. Before the last byte they lie in two bytes, whatever it is.
    fn far_node(self, book: Book) -> Result<Node, Fault>
        ensures result_value { node_reading self.at result ≡ (bit_source book.entry.bytes.now).node self.at }
        ensures node_moved { NodeMoved book.entry.bytes.now result }
    {
        let at = self.at;
        let index = at / 8;
        if book.bytes.len() <= index + 1 {
            return self.late_node(book);
        }
        let first = byte_at(book.bytes, index);
        let after = 7 - at % 8;
        let nine = ((first * 256 + byte_at(book.bytes, index + 1)) >> after) % 512;
        Ok(node_of(nine, (first >> after) % 2, at, Window::empty()))
    }

    // The node here, from the window where its bits are at hand.
    pub fn node(self, book: Book, window: Window) -> Result<Node, Fault>
        requires { Ahead book.bytes.now self.at window }
        ensures result_value { node_reading self.at result ≡ (bit_source book.entry.bytes.now).node self.at }
        ensures node_moved { NodeMoved book.entry.bytes.now result }
    {
        let ahead = window.refilled(book, self.at);
        if ahead.count < 9 {
            return self.far_node(book);
        }
        Ok(node_of(
            (ahead.bits >> 55) as u32,
            (ahead.bits >> 63) as u32,
            self.at,
            ahead.past(),
        ))
    }

    // Whether fewer than eight bits are left here, and all of them zeros.
    pub fn is_padding(self, book: Book) -> bool
        ensures { result ≡ is_padding book.entry.bytes.now self.at }
    {
        let at = self.at;
        let end = 8 * book.bytes.len();
        if end <= at {
            return true;
        }
        if 8 <= end - at {
            return false;
        }
        byte_at(book.bytes, at / 8) % (1u32 << (end - at)) == 0
    }
}
