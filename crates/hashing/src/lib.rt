// The fingerprint of a term under a rule file, from right to left over its words, with a stack of the terms that stand
// to the right.
#![tactic(auto)]

ghost use Rattle.std.specs.Prelude.{◌≡◌, ◌+◌, ◌*◌, ◌≤◌, ◌<◌, length};
ghost use Rattle.terms.specs.Signature.{symbol_of};
ghost use Rattle.terms.specs.Words.{term_of};
ghost use Rattle.terms.specs.Fingerprint.{wrapped, fingerprint as fingerprintOf};
ghost use Rattle.format.specs.Statements.{IsTerm};
ghost use Rattle.reader.specs.Promise.{IsTable};
ghost use Rattle.symbols.specs.Table.{signature_of, max_table_words};
ghost use Rattle.operations.specs.Hashing.{fingerprinted_term, fingerprinted};
ghost use Rattle.operations.specs.Enums.{reply_of};
ghost use Rattle.hashing.specs.Entries.{fingerprint_in, added_in, kept_by, put_by};

use format::MAX_NODES;
use operations::Error;
use symbols::is_ac;
use words::{Extent, front_term};

// A value is multiplied by the first for each argument of a row, and the word of an AC symbol by the second.
const ROW_FACTOR: u32 = 31;

const BAG_FACTOR: u32 = 65599;

// The product modulo 2^32.
fn times(x: u32, factor: u32) -> u32
    ensures { result ≡ wrapped (x * factor) }
{
    x.wrapping_mul(factor)
}

// What the stack has of a term: its root, and the sum of its multiset if the root is AC, else its fingerprint.
#[derive(Clone, Copy)]
struct Entry {
    root: u16,
    kept: u32,
}

impl Entry {
    // The fingerprint of the term.
    fn value(self, table: &[u16]) -> u32
        ensures { result ≡ fingerprint_in (signature_of table.now) self }
    {
        if is_ac(table, self.root) {
            return times(u32::from(self.root) + 1, BAG_FACTOR).wrapping_add(self.kept);
        }
        self.kept
    }

    // What the term adds to the sum of a multiset for f.
    fn added(self, table: &[u16], f: u16) -> u32
        ensures { result ≡ added_in (signature_of table.now) f self }
    {
        if f == self.root {
            return self.kept;
        }
        self.value(table)
    }
}

// What is kept of a node with the entries of its arguments: of an AC symbol the sum of its multiset.
fn gathered(table: &[u16], word: u16, entries: &[Entry]) -> u32
    ensures { result ≡ kept_by (signature_of table.now) word entries.now }
{
    if is_ac(table, word) {
        return entries
            .iter()
            .fold(0, |sum, entry| sum.wrapping_add(entry.added(table, word)));
    }
    entries.iter().fold(
        u32::from(word) + 1,
        |value, entry| times(value, ROW_FACTOR).wrapping_add(entry.value(table)),
    )
}

// The entries of the terms that stand to the right of a node, from the top on.
#[derive(Drop)]
struct Stack {
    entries: [Entry; MAX_NODES],
    top: usize,
    ghost within: { top ≤ 128 },
    ghost room: { length entries ≡ 128 },
}

impl Stack {
    ghost use Rattle.hashing.specs.Listed.{listed};

    // The node takes off the entries of its arguments and puts its own.
    fn put(&mut self, table: &[u16], word: u16)
        requires { (self.old.top + (symbol_of (signature_of table.now) word).arity ≤ 128)
            × (0 < self.old.top + (symbol_of (signature_of table.now) word).arity) }
        ensures { listed self.new ≡ put_by (signature_of table.now) word (listed self.old) }
    {
        let end = self.top + symbols::arity(table, word);
        let kept = gathered(table, word, &self.entries[self.top..end]);
        self.top = end - 1;
        self.entries[self.top] = Entry { root: word, kept };
    }
}

// The fingerprint of a term, from its last word to its first.
pub fn hash(table: &[u16], words: &[u16]) -> u32
    requires { (length table.now ≤ max_table_words) × IsTerm (signature_of table.now) words.now }
    ensures { result
        ≡ fingerprintOf (signature_of table.now)
        (term_of (signature_of table.now) words.now) }
{
    let mut stack = Stack {
        entries: [Entry { root: 0, kept: 0 }; MAX_NODES],
        top: MAX_NODES,
    };
    for word in words.iter().rev() {
        stack.put(table, *word);
    }
    stack.entries[stack.top].value(table)
}

// The fingerprint of a term under a symbol table.
fn fingerprint_under(table: &[u16], term: &[u16]) -> Result<usize, Error>
    requires { IsTable table.now }
    ensures { reply_of result ≡ fingerprinted_term (signature_of table.now) term.now }
{
    let arities = symbols::arities(table);
    front_term(&arities, term, Extent::Whole).map_err(|fault| fault.in_input(1))?;
    Ok(hash(table, term) as usize)
}

// The fingerprint of a term, as its node words, under a packed rule file.
pub fn fingerprint(book: &[u8], term: &[u16]) -> Result<usize, Error>
    ensures { reply_of result ≡ fingerprinted book.now term.now }
{
    let mut table = [0u16; symbols::TABLE_WORDS];
    let front = inputs::read_book(book, &mut table)?;
    fingerprint_under(&table[..front], term)
}
