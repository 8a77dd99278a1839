// Keys by offset, prepared once from right to left.
ghost use Rattle.std.specs.Prelude.{◌≡◌, ◌+◌, ◌*◌, ◌^◌, ◌%◌, ◌≤◌, ◌<◌, length, get_or};
ghost use Rattle.symbols.specs.Table.{signature_of};
ghost use Rattle.subterms.specs.Parts.{Complete};
ghost use Rattle.equivalence.specs.Keys.{middle_square, mixed, added as addedTo, Prepared, BothPrepared, size_in};
ghost use Rattle.equivalence.specs.Keys.{offset_after, hash_after};
ghost use Rattle.std.proofs.Props.{props};

use format::MAX_NODES;
use symbols::{arity, is_ac, word_at};

// How many hashes there are, and numbers that part them: the square's last bits that are left out, what spreads the
// words, and what an argument of a row counts more than the next.
const HASHES: u64 = 0x1_0000_0000;

const LEFT_OUT: u64 = 0x1_0000;

const SPREAD: u64 = 2654435769;

const ROW: u64 = 31;

// A key: the size, which is below the first of these, the root's word times it, and the hash times the second.
const SIZES: u64 = 0x100;

const SIZES_AND_WORDS: u64 = 0x100_0000;

fn middle_square(x: u64) -> u64
    requires { x < 4294967296 }
    ensures { (result ≡ middle_square x) × (result < 4294967296) }
{
    x * x / LEFT_OUT % HASHES
}

fn mix(word: u16, hash: u64) -> u64
    requires { hash < 1099511627776 }
    ensures { (result ≡ mixed word hash) × (result < 4294967296) }
{
    middle_square((hash + (u64::from(word) + 1) * SPREAD) % HASHES)
}

// The symbol whose arguments are gathered: its word, and whether it is AC.
#[derive(Clone, Copy)]
struct Root {
    word: u16,
    ac: bool,
}

// What an argument of a symbol adds, by the word of its own root and its hash, to what stands before it.
fn added(root: Root, before: u64, word: u16, hash: u64) -> u64
    requires { (before < 4294967296) × (hash < 1099511627776) }
    ensures { (result ≡ addedTo root.ac root.word before word hash) × (result < 4294967296) }
{
    if root.ac {
        if word == root.word {
            return (before + hash) % HASHES;
        }
        return (before + mix(word, hash)) % HASHES;
    }
    (ROW * before + mix(word, hash)) % HASHES
}

// The size of the part at an offset, by its key.
pub fn size_at(keys: &[u64; MAX_NODES], i: usize) -> usize
    requires { i < 128 }
    ensures { (result ≡ size_in keys.now i) × (result < 256) }
{
    (keys[i] % SIZES) as usize
}

// A term under a symbol table: its node words in prefix order, and the key of each of its parts by its offset.
#[derive(Clone, Copy)]
pub struct Keyed<'a> {
    pub table: &'a [u16],
    pub words: &'a [u16],
    pub keys: &'a [u64; MAX_NODES],
    pub ghost short: { length words.now ≤ 128 },
    pub ghost prepared: { ∥ Prepared (signature_of table.now) words.now keys.now ∥₁ },
}

impl Keyed<'_> {
    // The size of the part at an offset.
    pub fn size_at(&self, i: usize) -> usize
        requires { i < 128 }
        ensures { (result ≡ size_in self.now.keys.now i) × (result < 256) }
    {
        size_at(self.keys, i)
    }
}

// Two terms under one symbol table.
#[derive(Clone, Copy)]
pub struct Pair<'a> {
    pub left: Keyed<'a>,
    pub right: Keyed<'a>,
    pub ghost one_table: { left.table.now ≡ right.table.now } by { Prim.hlevel props },
    pub ghost both_prepared: { ∥ BothPrepared left.table.now left.words.now left.keys.now right.words.now
        right.keys.now ∥₁ },
}

// The offset after the n arguments of a symbol at i, and their hash. Past the end, keys and words are 0.
fn gather(root: Root, words: &[u16], keys: &[u64; MAX_NODES], i: usize, n: usize) -> (usize, u64)
    requires { i + 256 * n < 2 ^ 64 }
    ensures end_value { result.0 ≡ offset_after keys.now i n }
    ensures hash_value { (result.1 ≡ hash_after root.ac root.word words.now keys.now 0 i n) × (result.1 < 4294967296) }
{
    let mut end = i;
    let mut hash = 0;
    for _ in 0..n {
        let key = keys.get(end).copied().unwrap_or(0);
        hash = added(root, hash, word_at(words, end), key / SIZES_AND_WORDS);
        end += (key % SIZES) as usize;
    }
    (end, hash)
}

// Writes the key of the term that starts at each offset.
pub fn prepare(table: &[u16], words: &[u16], keys: &mut [u64; MAX_NODES])
    requires complete { Complete (signature_of table.now) words.now }
    requires table_len_bound { (length table.now ≤ 1025) × (length words.now ≤ 128) × (length keys.old ≡ 128) }
    ensures { Prepared (signature_of table.now) words.now keys.new }
{
    for i in (0..words.len()).rev() {
        let word = words[i];
        let root = Root {
            word,
            ac: is_ac(table, word),
        };
        let (end, hash) = gather(root, words, keys, i + 1, arity(table, word));
        keys[i] = SIZES_AND_WORDS * hash + SIZES * u64::from(word) + (end - i) as u64;
    }
}
