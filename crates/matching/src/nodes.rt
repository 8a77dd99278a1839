// A node of an agenda.

// A piece that is yet to be matched, by its offset and its mask, and the index of the node after it.
#[derive(Clone, Copy)]
pub struct Node {
    pub offset: u16,
    pub mask: u16,
    pub next: u16,
}

impl Node {
    // What an index holds before a piece is put there.
    pub const NONE: Node = Node {
        offset: 0,
        mask: 0,
        next: 0,
    };
}
