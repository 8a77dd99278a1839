// The operations that count and list the ground terms of n nodes under a rule file.
#![tactic(auto)]

ghost use Rattle.std.specs.Prelude.{◌≡◌, ◌≤◌, ◌*◌, length};
ghost use Rattle.symbols.specs.Table.{signature_of, max_table_words};
ghost use Rattle.operations.specs.Enumerating.{counted_terms, counted, listed_terms, listed, term_count, is_size};
ghost use Rattle.operations.specs.Replies.{outcome};
ghost use Rattle.operations.specs.Enums.{reply_of};

use counts::RowCounts;
use format::ErrorCode;
use operations::Error;

mod counts;
mod rows;
mod walk;

// The most terms that are counted.
const MAX_TERMS: u32 = 65535;

// How many terms there are, by their number up to 65,536; none where there are more than are counted.
fn term_count(number: u32) -> Option<usize>
    ensures { result ≡ term_count number }
{
    if number <= MAX_TERMS {
        Some(number as usize)
    } else {
        None
    }
}

// The most nodes of a term that is listed.
const MAX_SIZE: usize = 7;

// The error of another size.
const OUTSIDE: Error = Error {
    code: ErrorCode::SizeOutOfRange,
    input: 0,
    offset: 0,
};

// Whether terms of n nodes are counted and listed.
fn is_size(n: usize) -> bool
    ensures { result ≡ is_size n }
{
    0 < n && n <= MAX_SIZE
}

// How many ground terms of n nodes there are under a symbol table.
fn count_under(table: &[u16], n: usize) -> Result<Option<usize>, Error>
    requires { length table.now ≤ max_table_words }
    ensures { reply_of result ≡ counted_terms (signature_of table.now) n }
{
    if is_size(n) {
        Ok(term_count(RowCounts::new(table).at(n, 1)))
    } else {
        Err(OUTSIDE)
    }
}

// How many ground terms of n nodes there are under a packed rule file.
pub fn count(book: &[u8], n: usize) -> Result<Option<usize>, Error>
    ensures { reply_of result ≡ counted book.now n }
{
    let mut table = [0u16; symbols::TABLE_WORDS];
    let front = inputs::read_book(book, &mut table)?;
    count_under(&table[..front], n)
}

// How many words so many terms of n nodes have.
fn words_of(n: usize, number: u32) -> usize
    requires { (n ≤ 7) × (number ≤ 65535) }
    ensures { result ≡ n * number }
{
    n * number as usize
}

// Lists the ground terms of n nodes under a symbol table, one after another.
fn list_under(table: &[u16], words: &mut [u16], n: usize) -> Result<usize, Error>
    requires { length table.now ≤ max_table_words }
    ensures result_value { reply_of result
        ≡ (outcome (listed_terms (signature_of table.now) words.old n) words.old).reply }
    ensures words_after { words.new
        ≡ (outcome (listed_terms (signature_of table.now) words.old n) words.old).output }
{
    if !is_size(n) {
        return Err(OUTSIDE);
    }
    let counts = RowCounts::new(table);
    let number = counts.at(n, 1);
    if number > MAX_TERMS || words.len() < words_of(n, number) {
        return Err(Error {
            code: ErrorCode::NoRoomForTerms,
            input: 1,
            offset: 0,
        });
    }
    // Nothing is looked for where no term is.
    if number == 0 {
        return Ok(0);
    }
    let mut blocks = [None; counts::CELLS];
    let mut row = [0u16; MAX_SIZE];
    Ok(counts.walk(&mut blocks, n, 1, &mut row[..n], words, 0))
}

// Lists the ground terms of n nodes under a packed rule file, one after another.
pub fn list(book: &[u8], words: &mut [u16], n: usize) -> Result<usize, Error>
    ensures result_value { reply_of result ≡ (listed book.now words.old n).reply }
    ensures words_after { words.new ≡ (listed book.now words.old n).output }
{
    let mut table = [0u16; symbols::TABLE_WORDS];
    let front = inputs::read_book(book, &mut table)?;
    list_under(&table[..front], words, n)
}
