// The symbol table of a rule file: a symbol's entry, and all of them into a table.
ghost use Rattle.std.specs.Prelude.{◌≡◌, List, [], ◌∷◌, ◌++◌, map, false, not, ℕ, ◌+◌, ◌≤◌, ◌<◌, eqb, length};
ghost use Rattle.terms.specs.Signature.{Symbol};
ghost use Rattle.format.specs.Errors.{rank_taken};
ghost use Rattle.format.specs.Layout.{form_number, max_bytes, rank_width};
ghost use Rattle.format.specs.Symbols.{held_by, ones, symbol_reader, symbols_reader};
ghost use Rattle.format.specs.Packing.{item_word, symbol_items};
ghost use Rattle.symbols.specs.Table.{symbol_in, symbols_in, table_words, symbols_words};
ghost use Rattle.answers.specs.Answer.{reading, Below};
ghost use Rattle.bits.specs.Cursor.{told};
ghost use Rattle.reader.specs.Source.{input_of, source_of, Reached, InSheet, table_of, Room, Stored, tested};
ghost use Rattle.reader.specs.File.{stored_form};
ghost use Rattle.reader.specs.Symbol.{TakenBy, has_zero_weight_unary, LeastKept, SymbolPut, SymbolsRead};

use crate::field::field;
use crate::form::Form;
use crate::header::Header;
use crate::source::Source;
use crate::weight::read_weight;
use answers::Fault;
use bits::BitCursor;
use format::{ARITIES, ErrorCode, RANKS};
use symbols::Entry;

// The rank here, which is to be none of those taken.
fn read_rank(
    source: Source,
    taken: &[bool; RANKS],
    cursor: BitCursor,
) -> Result<(usize, BitCursor), Fault>
    ensures result_value { (earlier : List Symbol) → TakenBy earlier taken.now →
        reading (told result)
        ≡ tested (source_of (input_of source.entry)) rank_width
        (λ (rank : ℕ). not (held_by earlier rank)) rank_taken cursor.at }
    ensures below { Below 256 (told result) }
{
    let (rank, next) = field(source, cursor, format::RANK_WIDTH)?;
    if taken[rank] {
        let code = ErrorCode::RankTaken;
        let offset = cursor.at;
        return Err(Fault { code, offset });
    }
    Ok((rank, next))
}

// What is kept of the symbols read so far: which ranks are taken, and the least weights by the arity.
#[derive(Clone, Copy)]
struct Earlier {
    taken: [bool; RANKS],
    least: [u16; ARITIES],
    ghost ranks: { length taken ≡ 256 },
}

// Stores the entry of the symbol of that number where the file is packed; among words it stands.
fn put_entry(source: Source, table: &mut [u16], number: usize, entry: Entry)
    requires { (number < 256) × Room (input_of source) (table_words (number + 1)) table.old × (entry.arity < 8)
        × (entry.ac < 2) }
    ensures by_index { (s : Symbol) →
        s
        ≡ record {
          arity = entry.arity;
          ac = eqb entry.ac 1;
          weight = entry.weight;
          precedence = entry.rank;
          coefficients = ones entry.arity;
        } →
        InSheet (input_of source.entry) (λ words. symbol_in false words number ≡ s) →
        symbols_in false (table_of (input_of source.entry) table.new) 0 (number + 1)
        ≡ symbols_in false (table_of (input_of source.entry) table.old) 0 number ++ (s ∷ []) }
    ensures stored { Stored (input_of source.entry) (table_words number)
        (entry.arity ∷ entry.ac ∷ entry.weight ∷ entry.rank ∷ []) table.old table.new }
{
    match source {
        Source::Book(_) => symbols::put_symbol(table, number, entry),
        Source::Sheet(_) => {}
    }
}

// Reads the symbol of that number, of a packed file into the table, after those before it, and keeps of it
// what is asked of those after it.
#[inline(always)]
fn read_symbol(
    source: Source,
    table: &mut [u16],
    earlier: &mut Earlier,
    form: Form,
    number: usize,
    cursor: BitCursor,
) -> Result<BitCursor, Fault>
    requires room { (number < 256) × Room (input_of source) (table_words (number + 1)) table.old }
    requires reached { Reached (input_of source) (table_words number) cursor.at }
    requires taken_by { TakenBy (symbols_in false (table_of (input_of source) table.old) 0 number) earlier.old.taken }
    ensures { (w0 : ℕ) →
        LeastKept form.number w0 (has_zero_weight_unary (symbols_in false
        (table_of (input_of source.entry) table.old) 0
        number)) earlier.old.least →
        SymbolPut
        (symbol_reader (source_of (input_of source.entry)) form.number w0
        (symbols_in false (table_of (input_of source.entry) table.old) 0 number) cursor.at)
        (symbols_in false (table_of (input_of source.entry) table.old) 0 number)
        (Reached (input_of source.entry) (table_words (number + 1)))
        (λ (s : Symbol). Stored (input_of source.entry) (table_words number) (map item_word (symbol_items form_number s))
        table.old
        table.new × LeastKept form.number w0
        (has_zero_weight_unary (symbols_in false (table_of (input_of source.entry) table.new) 0 (number + 1)))
        earlier.new.least) result
        (symbols_in false (table_of (input_of source.entry) table.new) 0 (number + 1)) earlier.new.taken }
{
    let offset = cursor.at;
    let (arity, cursor) = field(source, cursor, format::ARITY_WIDTH)?;
    let arity = arity as u16;
    let (ac, cursor) = field(source, cursor, format::AC_WIDTH)?;
    let ac = ac as u16;
    if !symbols::binary_if_ac(arity, ac) {
        let code = ErrorCode::AcNotBinary;
        return Err(Fault { code, offset });
    }
    let (weight, cursor) = read_weight(source, form.number, &mut earlier.least, arity, cursor)?;
    let (rank, cursor) = read_rank(source, &earlier.taken, cursor)?;
    let entry = Entry {
        arity,
        ac,
        weight: weight as u16,
        rank: rank as u16,
    };
    put_entry(source, table, number, entry);
    earlier.taken[rank] = true;
    Ok(cursor)
}

// Reads the symbols, those of a packed file into the table, and tells whether one has arity 1 and weighs 0. It is made
// part of both branches of its caller, so that no field tests the source.
#[inline(always)]
fn read_symbols_from(
    source: Source,
    table: &mut [u16],
    header: Header,
    cursor: BitCursor,
) -> Result<(bool, BitCursor), Fault>
    requires room { Room (input_of source) (table_words header.symbols) table.old }
    requires reached { Reached (input_of source) 4 cursor.at }
    ensures { SymbolsRead
        (symbols_reader (source_of (input_of source.entry)) header.form.number header.w0
        header.symbols [] cursor.at)
        (λ (ss : List Symbol). Stored (input_of source.entry) 4 (symbols_words ss)
        table.old table.new) result
        (symbols_in false (table_of (input_of source.entry) table.new) 0 header.symbols) }
{
    let mut earlier = Earlier {
        taken: [false; RANKS],
        least: crate::weight::least_weights(header.w0),
    };
    let mut here = cursor;
    for number in 0..header.symbols {
        here = read_symbol(source, table, &mut earlier, header.form, number, here)?;
    }
    Ok((earlier.least[1] == 0, here))
}

// The form of the file that is stored where one of that form is read.
fn stored_form(form: u16) -> u16
    ensures { result ≡ stored_form form }
{
    if form == format::FIRST_FORM {
        return format::FORM;
    }
    form
}

// The same, the header of a packed file stored too, by one branch on the source, so that the compiler makes a loop for
// each.
pub fn read_symbols(
    source: Source,
    table: &mut [u16],
    header: Header,
    cursor: BitCursor,
) -> Result<(bool, BitCursor), Fault>
    requires room { Room (input_of source) (table_words header.symbols) table.old }
    requires reached { Reached (input_of source) 4 cursor.at }
    ensures { SymbolsRead
        (symbols_reader (source_of (input_of source.entry)) header.form.number header.w0
        header.symbols [] cursor.at)
        (λ (ss : List Symbol). Stored (input_of source.entry) 0
        (stored_form header.form.number ∷ header.symbols ∷ header.w0 ∷ header.rules ∷ symbols_words ss)
        table.old table.new) result
        (symbols_in false (table_of (input_of source.entry) table.new) 0 header.symbols) }
{
    match source {
        Source::Book(book) => {
            let form = stored_form(header.form.number);
            symbols::put_header(
                table,
                form,
                header.symbols as u16,
                header.w0,
                header.rules as u16,
            );
            read_symbols_from(Source::Book(book), table, header, cursor)
        }
        Source::Sheet(sheet) => { read_symbols_from(Source::Sheet(sheet), table, header, cursor) }
    }
}
