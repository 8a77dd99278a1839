// Reading a side and a rule of a packed file, node by node in prefix order, and storing their words.
#![tactic(auto)]

ghost use Rattle.std.specs.Prelude.{◌≡◌, None, ℕ, ◌+◌, ◌-◌, ◌*◌, ◌^◌, ◌≤◌, ◌<◌, length};
ghost use Rattle.std.proofs.lemmas.List.Edits.{sets};
ghost use Rattle.terms.specs.Signature.{Signature};
ghost use Rattle.terms.specs.Words.{first_variable};
ghost use Rattle.format.specs.Layout.{max_nodes};
ghost use Rattle.format.specs.Reading.{bit_source};
ghost use Rattle.format.specs.Statements.{Unscaled};
ghost use Rattle.format.specs.Format.{forest_reader, nodes_reader, rule_reader};
ghost use Rattle.symbols.specs.Arities.{Arities};
ghost use Rattle.answers.specs.Answer.{answer_of, Within};
ghost use Rattle.bits.specs.Cursor.{told, Ahead};
ghost use Rattle.sides.specs.Side.{ForestRead, SideRead, SideStored, WordsRead, side_words};

use answers::{Fault, answer_of};
use bits::{BitCursor, Book, Window};
use format::{ErrorCode, FIRST_VARIABLE, MAX_NODES, NODE_WORDS};

// Reads as many terms as are owed from a cursor on, their words stored after the first ones, moves the word of the
// lowest unused variable and the count of words past them, and stores the offset where they end, or that of a fault,
// whose error it tells. It reads a node and calls itself for what is then owed, with one node fewer allowed. This call in
// last place would be no jump with a result in two registers or a parameter that is handed on whole, so the error is told
// by a reference, and cursor and window are made anew of their numbers.
fn read_terms(
    book: &Book,
    arities: &[u32; NODE_WORDS],
    words: &mut [u16; MAX_NODES],
    lowest: &mut usize,
    count: &mut usize,
    end: &mut usize,
    error: &mut Option<ErrorCode>,
    from: BitCursor,
    ahead: Window,
    owed: usize,
)
    requires from_ahead { Ahead book.now.bytes.now from.at ahead }
    requires count_le_max_nodes { (count.old ≤ max_nodes) × (owed + 2 ^ 32 * (max_nodes - count.old) ≤ 2 ^ 60) × (length words.old ≡ max_nodes) }
    requires le_lowest { (256 ≤ lowest.old) × (lowest.old ≤ 272) }
    requires no_error { error.old ≡ None }
    ensures forest_read { (σ : Signature) → Arities σ arities.now → (unused : ℕ) →
        lowest.old ≡ first_variable + unused →
        ForestRead unused count.old words.old
        (answer_of error.new count.new end.new) words.new lowest.new
        (forest_reader (bit_source book.now.bytes.now) unused σ (max_nodes - count.old) owed from.at) }
    ensures within { Within max_nodes (8 * length book.now.bytes.now) (answer_of error.new count.new end.new) }
    ensures words_len { (length words.new ≡ max_nodes) × (256 ≤ lowest.new) × (lowest.new ≤ 272) }
{
    let at = from.at;
    let cursor = BitCursor { at };
    let window = Window {
        bits: ahead.bits,
        count: ahead.count,
    };
    *end = at;
    if owed == 0 {
        return;
    }
    if *count == MAX_NODES {
        *error = Some(ErrorCode::TooManyNodes);
        return;
    }
    match cursor.node(*book, window) {
        Err(fault) => {
            *end = fault.offset;
            *error = Some(fault.code);
        }
        Ok(node) => {
            let word = node.word as u16;
            words[*count] = word;
            *end = at + 1;
            let cell = symbols::cell_at(arities, word);
            if cell == 0 {
                *error = Some(ErrorCode::NoSuchSymbol);
                return;
            }
            if *lowest < node.word {
                *error = Some(ErrorCode::VariableOutOfTurn);
                return;
            }
            *lowest = variables::unused_after(*lowest, node.word);
            *count += 1;
            read_terms(
                book,
                arities,
                words,
                lowest,
                count,
                end,
                error,
                node.cursor,
                node.window,
                cell - 1 + (owed - 1),
            )
        }
    }
}

// Reads a side into the words, where the variables from a number on are unused, and moves the number past those of the
// side; the value is how many words there are.
pub fn read_side(
    book: Book,
    arities: &[u32; NODE_WORDS],
    words: &mut [u16; MAX_NODES],
    unused: &mut usize,
    cursor: BitCursor,
) -> Result<(usize, BitCursor), Fault>
    requires cursor_bound { cursor.at ≤ 8 * length book.bytes.now }
    requires words_len { (length words.old ≡ max_nodes) × (unused.old ≤ 16) }
    ensures side_read { (σ : Signature) → Arities σ arities.now →
        SideRead unused.old
        (nodes_reader (bit_source book.entry.bytes.now) max_nodes unused.old σ cursor.at) (told result)
        words.new unused.new }
    ensures within { Within max_nodes (8 * length book.entry.bytes.now) (told result) }
    ensures words_len_2 { (length words.new ≡ max_nodes) × (unused.new ≤ 16) }
{
    let mut lowest = FIRST_VARIABLE as usize + *unused;
    let mut count = 0;
    let mut end = cursor.at;
    let mut error = None;
    read_terms(
        &book,
        arities,
        words,
        &mut lowest,
        &mut count,
        &mut end,
        &mut error,
        cursor,
        Window::empty(),
        1,
    );
    *unused = lowest - FIRST_VARIABLE as usize;
    bits::moved(answer_of(error, count, end))
}

// Stores words from an index on, where there is room for all of them, and none where there is not.
pub fn put_words(words: &mut [u16], index: usize, nodes: &[u16])
    requires { index + length nodes.now < 2 ^ 63 }
    ensures words_after { index + length nodes.now ≤ length words.old →
        words.new ≡ sets words.old index nodes.now }
    ensures words_unchanged { length words.old < index + length nodes.now → words.new ≡ words.old }
{
    let end = index + nodes.len();
    if end <= words.len() {
        words[index..end].copy_from_slice(nodes);
    }
}

// Reads a side, its words stored from an index on; the value is the index past them.
fn read_side_into(
    book: Book,
    arities: &[u32; NODE_WORDS],
    words: &mut [u16],
    unused: &mut usize,
    index: usize,
    cursor: BitCursor,
) -> Result<(usize, BitCursor), Fault>
    requires cursor_bound { (cursor.at ≤ 8 * length book.bytes.now) × (index < 2 ^ 32) }
    requires unused_bound { unused.old ≤ 16 }
    ensures side_stored { (σ : Signature) → Arities σ arities.now →
        SideStored unused.old
        (nodes_reader (bit_source book.entry.bytes.now) max_nodes unused.old σ cursor.at)
        index words.old (told result) words.new unused.new }
    ensures within { Within (index + max_nodes) (8 * length book.entry.bytes.now) (told result) }
    ensures unused_bound_2 { unused.new ≤ 16 }
{
    let mut side = [0u16; MAX_NODES];
    let (count, next) = read_side(book, arities, &mut side, unused, cursor)?;
    put_words(words, index, &side[..count]);
    Ok((index + count, next))
}

// Reads a rule's two sides, where the variables from a number on are unused, their words stored from an index on; the
// value is the index past them.
pub fn read_rule_into(
    book: Book,
    arities: &[u32; NODE_WORDS],
    words: &mut [u16],
    unused: usize,
    index: usize,
    cursor: BitCursor,
) -> Result<(usize, BitCursor), Fault>
    requires cursor_bound { (cursor.at ≤ 8 * length book.bytes.now) × (index + max_nodes < 2 ^ 32) }
    requires unused_bound { unused ≤ 16 }
    ensures words_read { (σ : Signature) → Arities σ arities.now → Unscaled σ →
        WordsRead side_words (rule_reader (bit_source book.entry.bytes.now) unused σ cursor.at)
        index words.old (told result) words.new }
    ensures within { Within (index + 2 * max_nodes) (8 * length book.entry.bytes.now) (told result) }
{
    let mut lowest = unused;
    let (middle, next) = read_side_into(book, arities, words, &mut lowest, index, cursor)?;
    read_side_into(book, arities, words, &mut lowest, middle, next)
}
