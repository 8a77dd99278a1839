// Reading the rules of a file: those of a packed one are stored one after the other, those among words stay there.
ghost use Rattle.std.specs.Prelude.{◌≡◌, List, ◌+◌, ◌*◌, ◌^◌, ◌≤◌, ◌<◌, length};
ghost use Rattle.terms.specs.Signature.{Signature};
ghost use Rattle.format.specs.Layout.{max_nodes};
ghost use Rattle.format.specs.Reading.{bit_source, word_source};
ghost use Rattle.format.specs.Forms.{unused_of};
ghost use Rattle.format.specs.Format.{Sides, rule_reader, rules_reader};
ghost use Rattle.format.specs.Statements.{Unscaled};
ghost use Rattle.symbols.specs.Arities.{Arities};
ghost use Rattle.answers.specs.Answer.{end_of, ended, Within};
ghost use Rattle.bits.specs.Cursor.{told};
ghost use Rattle.sides.specs.Side.{WordsRead, side_words, rules_words};
ghost use Rattle.reader.specs.File.{sides_in, rules_in};

use answers::Fault;
use bits::{BitCursor, Book};
use format::NODE_WORDS;

// Reads a rule of that form from bits, its words stored from an index on with the variables in order of first use; the
// value is the index past them.
fn read_packed_rule(
    book: Book,
    arities: &[u32; NODE_WORDS],
    words: &mut [u16],
    form: u16,
    index: usize,
    cursor: BitCursor,
) -> Result<(usize, BitCursor), Fault>
    requires { (cursor.at ≤ 8 * length book.bytes.now) × (index + max_nodes < 2 ^ 32) }
    ensures words_read { (σ : Signature) → Arities σ arities.now → Unscaled σ →
        WordsRead (λ (s : Sides). side_words (sides_in form s))
        (rule_reader (bit_source book.entry.bytes.now) (unused_of form) σ cursor.at)
        index words.old (told result) words.new }
    ensures within { Within (index + 2 * max_nodes) (8 * length book.entry.bytes.now) (told result) }
{
    let unused = variables::unused_at_start(form);
    let (end, next) = sides::read_rule_into(book, arities, words, unused, index, cursor)?;
    if form == format::FIRST_FORM {
        variables::renumber(words, index, end);
    }
    Ok((end, next))
}

// Reads that many rules from bits, their words stored at the front; the value is how many words there are.
pub fn read_packed_rules(
    book: Book,
    arities: &[u32; NODE_WORDS],
    words: &mut [u16],
    form: u16,
    count: usize,
    cursor: BitCursor,
) -> Result<(usize, BitCursor), Fault>
    requires { (cursor.at ≤ 8 * length book.bytes.now) × (count < 1024) }
    ensures { (σ : Signature) → Arities σ arities.now → Unscaled σ →
        WordsRead (λ (rules : List Sides). rules_words (rules_in form rules))
        (rules_reader (bit_source book.entry.bytes.now) (unused_of form) σ count cursor.at)
        0 words.old (told result) words.new }
{
    let mut end = 0;
    let mut here = cursor;
    for _number in 0..count {
        let (past, next) = read_packed_rule(book, arities, words, form, end, here)?;
        end = past;
        here = next;
    }
    Ok((end, here))
}

// Reads a rule's two sides from words, where the variables from a number on are unused, and gives the end.
fn read_word_rule(
    arities: &[u32; NODE_WORDS],
    sheet: &[u16],
    unused: usize,
    at: usize,
) -> Result<usize, Fault>
    requires at_bound { (at ≤ 2 ^ 19) × (unused ≤ 16) }
    requires arities { (σ : Signature) × Arities σ arities.now × Unscaled σ }
    ensures { (σ : Signature) → Arities σ arities.now → Unscaled σ →
        ended result ≡ end_of (rule_reader (word_source sheet.now) unused σ at) }
{
    let (used, middle) = words::term(arities, sheet, format::MAX_NODES, unused, at)?;
    let (_, end) = words::term(arities, sheet, format::MAX_NODES, used, middle)?;
    Ok(end)
}

// Reads that many rules from words, and gives the end.
pub fn read_word_rules(
    arities: &[u32; NODE_WORDS],
    sheet: &[u16],
    unused: usize,
    count: usize,
    at: usize,
) -> Result<usize, Fault>
    requires at_bound { (at ≤ 2 ^ 16) × (count < 1024) × (unused ≤ 16) }
    requires arities { (σ : Signature) × Arities σ arities.now × Unscaled σ }
    ensures { (σ : Signature) → Arities σ arities.now → Unscaled σ →
        ended result ≡ end_of (rules_reader (word_source sheet.now) unused σ count at) }
{
    let mut here = at;
    for _number in 0..count {
        here = read_word_rule(arities, sheet, unused, here)?;
    }
    Ok(here)
}
