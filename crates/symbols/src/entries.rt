// The words of a symbol table: how many there are, and storing them.
#![tactic(auto)]

ghost use Rattle.std.specs.Prelude.{◌≡◌, [], ◌∷◌, ◌+◌, ◌^◌, ◌≤◌, ◌<◌, length};
ghost use Rattle.std.proofs.lemmas.List.Edits.{sets};
ghost use Rattle.symbols.specs.Table.{scaled_words, signature_of, table_words, max_table_words};

// How many words a symbol table may have.
pub const TABLE_WORDS: usize = 4 + 4 * format::MAX_SYMBOLS;

// How many words of a table so many symbols take.
#[tactic(auto, unfolding(crate::specs::Table::table_words))]
pub fn front(symbols: usize) -> usize
    requires { symbols < 256 }
    ensures { (result ≡ table_words symbols) × (result ≤ max_table_words) }
{
    4 + 4 * symbols
}

// How many symbols a table has.
#[tactic(auto, using(crate::proofs::TableLaws::table_laws))]
pub fn count(table: &[u16]) -> usize
    requires { length table.now ≤ max_table_words }
    ensures { (result ≡ length (signature_of table.now).symbols) × (result < 256) }
{
    table.len().saturating_sub(1) / 4
}

// What a file says of a symbol but for its coefficients; ac is 1 for an AC symbol, 0 for another.
#[derive(Clone, Copy)]
pub struct Entry {
    pub arity: u16,
    pub ac: u16,
    pub weight: u16,
    pub rank: u16,
}

// Stores four words from an index on.
#[tactic(auto, using(multisets::proofs::ListLaws::put_part))]
fn put_four(table: &mut [u16], index: usize, words: [u16; 4])
    requires { index + 4 ≤ length table.old }
    ensures { table.new ≡ sets table.old index words }
{
    table[index..index + 4].copy_from_slice(&words);
}

// Stores the header's words: the form, the count of symbols, the weight of a variable, the count of rules. No struct has
// them, since they meet in this call alone.
pub fn put_header(table: &mut [u16], form: u16, symbols: u16, w0: u16, rules: u16)
    requires { 4 ≤ length table.old }
    ensures { table.new ≡ sets table.old 0 (form ∷ symbols ∷ w0 ∷ rules ∷ []) }
{
    put_four(table, 0, [form, symbols, w0, rules]);
}

// Stores the entry of the symbol of that number, after those before it, where symbols have no coefficients.
#[tactic(auto, unfolding(crate::specs::Table::table_words))]
pub fn put_symbol(table: &mut [u16], number: usize, entry: Entry)
    requires { (number < 256) × (table_words (number + 1) ≤ length table.old) }
    ensures { table.new
        ≡ sets table.old (table_words number) (entry.arity ∷ entry.ac ∷ entry.weight ∷ entry.rank ∷ []) }
{
    let words = [entry.arity, entry.ac, entry.weight, entry.rank];
    put_four(table, front(number), words);
}

// Stores it with its coefficients, whose digits the row has.
#[tactic(auto, unfolding(crate::specs::Table::table_words))]
pub fn put_scaled_symbol(table: &mut [u16], number: usize, entry: Entry, row: u64)
    requires number_bound { (number < 256) × (table_words (number + 1) ≤ length table.old) }
    requires arity_bound { (entry.arity < 8) × (entry.ac < 2) × (row < 2 ^ 28) }
    ensures { table.new
        ≡ sets table.old (table_words number) (scaled_words entry.arity entry.ac entry.weight entry.rank row) }
{
    let first = 8 * (row / 32768) as u16 + entry.arity;
    let second = 2 * (row % 32768) as u16 + entry.ac;
    put_four(
        table,
        front(number),
        [first, second, entry.weight, entry.rank],
    );
}
