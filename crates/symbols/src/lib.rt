// The decoded symbol table: access to a symbol by its number. Only these functions know how the words lie. They take the
// table as the slice that it is: a struct around the one slice would hold no fact, and each caller would have to wrap it.
#![tactic(auto)]

ghost use Rattle.std.specs.Prelude.{◌≡◌, not, ◌&&◌, ◌||◌, cond, ◌+◌, ◌*◌, ◌^◌, ◌≤◌, ◌<◌, eqb, length, get_or};
ghost use Rattle.terms.specs.Signature.{Signature, symbol_of};
ghost use Rattle.format.specs.Layout.{first_form};
ghost use Rattle.format.specs.Forms.{has_coefficients};
ghost use Rattle.symbols.specs.Table.{spelled, seven_ones, row_at, form_of, signature_of, max_table_words};
ghost use Rattle.symbols.specs.Arities.{Arities, Between};

use format::{FIRST_FORM, FIRST_VARIABLE, NODE_WORDS};

mod entries;
mod ranks;

pub use crate::entries::{
    Entry, TABLE_WORDS, count, front, put_header, put_scaled_symbol, put_symbol,
};
pub use crate::ranks::first_outranked;

// The word at an index, and 0 past the end.
pub fn word_at(words: &[u16], index: usize) -> u16
    ensures { result ≡ get_or words.now index 0 }
{
    words.get(index).copied().unwrap_or(0)
}

// Whether symbols have coefficients; else all are 1.
pub fn has_coefficients(table: &[u16]) -> bool
    ensures { result ≡ has_coefficients (form_of table.now) }
{
    word_at(table, 0) == format::COEFFICIENT_FORM
}

#[tactic(auto, using(crate::proofs::TableLaws::table_laws))]
pub fn arity(table: &[u16], f: u16) -> usize
    ensures { (result ≡ (symbol_of (signature_of table.now) f).arity) × (result < 65536) }
{
    usize::from(word_at(table, 4 * usize::from(f) + 4) % 8)
}

#[tactic(auto, using(crate::proofs::TableLaws::table_laws))]
pub fn is_ac(table: &[u16], f: u16) -> bool
    ensures { result ≡ (symbol_of (signature_of table.now) f).ac }
{
    word_at(table, 4 * usize::from(f) + 5) % 2 == 1
}

#[tactic(auto, using(crate::proofs::TableLaws::table_laws))]
pub fn weight(table: &[u16], f: u16) -> u64
    ensures { (result ≡ (symbol_of (signature_of table.now) f).weight) × (result < 65536) }
{
    u64::from(word_at(table, 4 * usize::from(f) + 6))
}

#[tactic(auto, using(crate::proofs::TableLaws::table_laws))]
pub fn precedence(table: &[u16], f: u16) -> u16
    ensures { result ≡ (symbol_of (signature_of table.now) f).precedence }
{
    word_at(table, 4 * usize::from(f) + 7)
}

// Seven digits, of which a symbol's coefficients are the last ones.
fn last_digits(table: &[u16], f: u16) -> u64
    ensures { (result ≡ cond (has_coefficients (form_of table.now)) (row_at table.now f) seven_ones)
        × (result < 2 ^ 28) }
{
    if has_coefficients(table) {
        let first = 4 * usize::from(f) + 4;
        let high = u64::from(word_at(table, first) / 8);
        return 32768 * high + u64::from(word_at(table, first + 1) / 2);
    }
    0x1111111
}

// The coefficients of a symbol, a hexadecimal digit each, the last argument's lowest.
pub fn row(table: &[u16], f: u16) -> u64
    ensures { (result ≡ spelled (symbol_of (signature_of table.now) f).coefficients) × (result < 2 ^ 28) }
{
    last_digits(table, f) % (1u64 << (4 * arity(table, f)))
}

// The weight of a variable.
#[tactic(auto, unfolding(crate::specs::Table::signature_of))]
pub fn variable_weight(table: &[u16]) -> u64
    ensures { (result ≡ (signature_of table.now).w0) × (result < 65536) }
{
    u64::from(word_at(table, 2))
}

// Whether a symbol that is AC has two arguments: 4 shifted by the arity is odd for two alone. There is no branch on the
// arity, which no processor foresees.
pub fn binary_if_ac(arity: u16, ac: u16) -> bool
    requires { (arity < 8) × (ac < 2) }
    ensures { result ≡ (eqb ac 0 || eqb arity 2) }
{
    ac <= (4u16 >> arity) % 2
}

// Whether a symbol of that arity may weigh less in a file of that form than in form 1.
pub fn may_weigh_less(form: u16, arity: u16) -> bool
    ensures { result ≡ (not (eqb form first_form) && eqb arity 1) }
{
    form != FIRST_FORM && arity == 1
}

// Stores the cells of all symbols of a table, one more than how many arguments each calls for.
fn put_symbol_cells(table: &[u16], cells: &mut [u32; NODE_WORDS], count: usize)
    requires { (count ≡ length (signature_of table.now).symbols) × (count ≤ 256) }
    ensures { Between (signature_of table.now) 0 count cells.old cells.new }
{
    for f in 0..count {
        cells[f] = u32::from(table[4 * f + 4] % 8) + 1;
    }
}

// Stores the cells of the variables, which call for none.
fn put_variable_cells(cells: &mut [u32; NODE_WORDS])
    ensures { (σ : Signature) → Between σ 256 272 cells.old cells.new }
{
    for word in FIRST_VARIABLE as usize..NODE_WORDS {
        cells[word] = 1;
    }
}

// The cells of all node words; 0 for a symbol that the table lacks.
pub fn arities(table: &[u16]) -> [u32; NODE_WORDS]
    requires { length table.now ≤ max_table_words }
    ensures { Arities (signature_of table.now) result }
{
    let mut cells = [0u32; NODE_WORDS];
    put_symbol_cells(table, &mut cells, count(table));
    put_variable_cells(&mut cells);
    cells
}

// The cell of a node word.
pub fn cell_at(cells: &[u32; NODE_WORDS], word: u16) -> usize
    requires { word < 272 }
    ensures { (result ≡ get_or cells.now word 0) × (result < 2 ^ 32) }
{
    cells[usize::from(word)] as usize
}
