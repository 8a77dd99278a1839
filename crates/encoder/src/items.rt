// The items of a file: a field or a node for each word, and their bits.
#![tactic(auto)]

ghost use Rattle.std.specs.Prelude.{◌≡◌, List, ◌++◌, ℕ, ◌+◌, ◌*◌, ◌/◌, ◌^◌, ◌<◌, ◌≤◌, length};
ghost use Rattle.format.specs.Packing.{bits_of, item_bits, bytes_of};
ghost use Rattle.format.specs.Packing.Item.{node};
ghost use Rattle.writer.specs.Writer.{Writes};
ghost use Rattle.encoder.specs.Items.{field_width, bits_to, node_bits, Follows};

use writer::BitWriter;

// The bits of the header, of a symbol, and of a node that is one.
const HEADER_BITS: usize = 38;

const SYMBOL_BITS: usize = 28;

const SYMBOL_NODE_BITS: usize = 9;

// The tag of a node: 1 for a variable, which takes four bits fewer than a symbol.
fn tag(word: u16) -> u32
    ensures { (length (item_bits (node word)) + 4 * result ≡ 9) × (result ≤ 1) }
{
    u32::from(format::FIRST_VARIABLE <= word)
}

// How many bits a node takes.
fn node_width(word: u16) -> usize
    ensures { (result ≡ length (item_bits (node word))) × (result ≤ 9) }
{
    SYMBOL_NODE_BITS - 4 * tag(word) as usize
}

// The bits of a node as a number.
fn node_value(word: u16) -> u16
    ensures { (bits_of (length (item_bits (node word))) result ≡ item_bits (node word)) × (result < 2 ^ length (item_bits (node word))) }
{
    if word < format::FIRST_VARIABLE {
        word
    } else {
        16 + word % 16
    }
}

// How many bits the items of all words take, where there are so many symbols and the nodes begin at word `nodes`.
pub fn packed_bits(words: &[u16], symbols: usize, nodes: usize) -> usize
    requires { (nodes ≡ 4 + 4 * symbols) × (nodes ≤ length words.now) × (length words.now < 2 ^ 32) }
    ensures { result ≡ length (bits_to words.now nodes (length words.now)) }
{
    let mut variables = 0;
    for &word in &words[nodes..] {
        variables += tag(word);
    }
    HEADER_BITS + SYMBOL_BITS * symbols + SYMBOL_NODE_BITS * (words.len() - nodes)
        - 4 * variables as usize
}

// Pushes two fields, of those widths, from word i on.
fn push_pair(writer: BitWriter, words: &[u16], i: usize, m: usize, n: usize) -> BitWriter
    requires { (i + 1 < length words.now) × (m ≤ 16) × (n ≤ 16) × (writer.count ≤ 32) }
    ensures count_value { result.count ≡ writer.count + m + n }
    ensures by_index { (nodes : ℕ) → i + 1 < nodes → field_width i ≡ m → field_width (i + 1) ≡ n →
        Follows words.now nodes i (i + 2) writer result }
{
    let first = writer::last_bits(words[i], m);
    let second = writer::last_bits(words[i + 1], n);
    writer.push(m, first).push(n, second)
}

// Writes the bits of the fields, those of the header and of so many symbols, to the front of the bytes.
fn write_fields(words: &[u16], nodes: usize, bytes: &mut [u8]) -> BitWriter
    requires by_index { ((symbols : ℕ) × (nodes ≡ 4 + 4 * symbols)) × (nodes ≤ length words.now) }
    requires nodes_len_bound { length (bits_to words.now nodes nodes) ≤ 8 * length bytes.old }
    ensures count_bound { result.count < 8 }
    ensures writes { Writes (bits_to words.now nodes nodes) result bytes.new }
{
    let start = BitWriter {
        stored: 0,
        pending: 0,
        count: 0,
    };
    let half = push_pair(
        start,
        words,
        0,
        format::FORM_WIDTH,
        format::SYMBOL_COUNT_WIDTH,
    );
    let header = push_pair(
        half,
        words,
        2,
        format::WEIGHT_WIDTH,
        format::RULE_COUNT_WIDTH,
    );
    let mut writer = header.flush(bytes);
    for f in 0..nodes / 4 - 1 {
        let i = 4 * f + 4;
        let front = push_pair(writer, words, i, format::ARITY_WIDTH, format::AC_WIDTH);
        let symbol = push_pair(
            front,
            words,
            i + 2,
            format::WEIGHT_WIDTH,
            format::RANK_WIDTH,
        );
        writer = symbol.flush(bytes);
    }
    writer
}

// Pushes a node.
fn push_node(writer: BitWriter, word: u16) -> BitWriter
    requires { writer.count ≤ 55 }
    ensures count_bound { result.count ≤ writer.count + 9 }
    ensures by_index { (bits bytes : List ℕ) → Writes bits writer bytes →
        Writes (bits ++ item_bits (node word)) result bytes }
{
    writer.push(node_width(word), node_value(word))
}

// Pushes some nodes, as many as there is room for.
fn push_nodes(writer: BitWriter, nodes: &[u16]) -> BitWriter
    requires { writer.count + 9 * length nodes.now ≤ 64 }
    ensures count_bound { result.count ≤ writer.count + 9 * length nodes.now }
    ensures by_index { (bits bytes : List ℕ) → Writes bits writer bytes →
        Writes (bits ++ node_bits nodes.now) result bytes }
{
    let mut last = writer;
    for &word in nodes {
        last = push_node(last, word);
    }
    last
}

// Writes the bits of all items, with zeros up to a whole byte, to the bytes, which are as many as they take. Six nodes
// take at most 54 bits, so that with the bits that wait they are stored at once.
pub fn write_items(words: &[u16], nodes: usize, bytes: &mut [u8])
    requires by_index { ((symbols : ℕ) × (nodes ≡ 4 + 4 * symbols)) × (nodes ≤ length words.now) }
    requires bytes_len { length bytes.old ≡ (length (bits_to words.now nodes (length words.now)) + 7) / 8 }
    ensures { bytes.new ≡ bytes_of (bits_to words.now nodes (length words.now)) }
{
    let mut writer = write_fields(words, nodes, bytes);
    let mut rest = &words[nodes..];
    while let Some((six, after)) = rest.split_first_chunk::<6>() {
        writer = push_nodes(writer, six).flush(bytes);
        rest = after;
    }
    push_nodes(writer, rest).finish(bytes);
}
