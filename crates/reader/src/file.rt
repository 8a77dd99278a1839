// Reading a whole file, packed or a sheet: what stands before its rules, and its rules, or its first fault.
ghost use Rattle.std.specs.Prelude.{◌≡◌, List, true, ℕ, ◌≤◌, length};
ghost use Rattle.format.specs.Errors.{number_of};
ghost use Rattle.format.specs.Forms.{is_taken, form_error};
ghost use Rattle.format.specs.Files.{read_bytes_in, read_words};
ghost use Rattle.symbols.specs.Table.{form_of, max_table_words};
ghost use Rattle.reader.specs.Source.{input_of, Reached, InSheet, Room, read_source};
ghost use Rattle.reader.specs.Source.Input.{from_bytes, from_words};
ghost use Rattle.reader.specs.File.{counts_reader, HeadRead, PackedRead, SheetRead};

use crate::field::{field, field_at_least};
use crate::form::Form;
use crate::header::Header;
use crate::rule::{read_packed_rules, read_word_rules};
use crate::source::Source;
use answers::Fault;
use bits::{BitCursor, Book};
use format::{ErrorCode, SYMBOL_COUNT_WIDTH};

// What stands before the rules of a file: how many symbols and rules there are, and where the rules begin.
#[derive(Clone, Copy)]
pub struct Head {
    pub symbols: usize,
    pub rules: usize,
    pub cursor: BitCursor,
}

// How many words of a file stand in the table, and how many words its rules have.
#[derive(Clone, Copy)]
pub struct Unpacked {
    pub front: usize,
    pub nodes: usize,
}

// Reads the counts that follow that form, and the symbols.
fn read_counts(
    source: Source,
    form: Form,
    table: &mut [u16],
    cursor: BitCursor,
) -> Result<Head, Fault>
    requires reached { Reached (input_of source) 1 cursor.at }
    requires room { Room (input_of source) max_table_words table.old }
    requires sheet_value { InSheet (input_of source) (λ words. form_of words ≡ form.number) }
    ensures { (reader : ℕ) → is_taken reader form.number ≡ true →
        HeadRead reader (input_of source.entry)
        (counts_reader form.number (input_of source.entry) cursor.at) result table.new }
{
    let error = ErrorCode::NoSymbols;
    let (symbols, cursor) = field_at_least(source, cursor, SYMBOL_COUNT_WIDTH, 1, error)?;
    let error = ErrorCode::VariableWeightless;
    let (w0, cursor) = field_at_least(source, cursor, format::WEIGHT_WIDTH, 1, error)?;
    let w0 = w0 as u16;
    let (rules, cursor) = field(source, cursor, format::RULE_COUNT_WIDTH)?;
    let header = Header {
        form,
        symbols,
        w0,
        rules,
    };
    let cursor = crate::table::read_table(source, table, header, cursor)?;
    Ok(Head {
        symbols,
        rules,
        cursor,
    })
}

// Whether a reader of that form takes a file of the form that it read.
fn is_taken(form: u16, read: usize) -> bool
    ensures { result ≡ is_taken form read }
{
    read == form as usize
}

// The error of a form that is not taken.
fn form_error(form: usize) -> ErrorCode
    ensures { number_of result ≡ form_error form }
{
    if form == format::FIRST_FORM as usize {
        return ErrorCode::OldForm;
    }
    ErrorCode::WrongForm
}

// Reads the header and the symbols of a file that a reader of that form takes, the symbols of a packed one into the
// table.
fn read_front(source: Source, form: Form, table: &mut [u16]) -> Result<Head, Fault>
    requires { Room (input_of source) max_table_words table.old }
    ensures { HeadRead form.number (input_of source.entry)
        (read_source form.number (input_of source.entry)) result table.new }
{
    let start = BitCursor { at: 0 };
    let (read, cursor) = field(source, start, format::FORM_WIDTH)?;
    if !is_taken(form.number, read) {
        let code = form_error(read);
        return Err(Fault { code, offset: 0 });
    }
    let form = Form {
        number: read as u16,
    };
    read_counts(source, form, table, cursor)
}

// Reads the header and the symbols of a packed file that a reader of that form takes, the symbols into the table.
pub fn read_head(book: &[u8], form: Form, table: &mut [u16]) -> Result<Head, Fault>
    requires { max_table_words ≤ length table.old }
    ensures { HeadRead form.number (from_bytes book.now) (read_bytes_in form.number book.now) result table.new }
{
    if format::MAX_BYTES < book.len() {
        let code = ErrorCode::FileTooLong;
        return Err(Fault { code, offset: 0 });
    }
    read_front(Source::Book(Book { bytes: book }), form, table)
}

// Reads the header and the symbols of a sheet that a reader of that form takes; no table is stored.
pub fn read_sheet_head(sheet: &[u16], form: Form) -> Result<Head, Fault>
    ensures { (table : List ℕ) →
        HeadRead form.number (from_words sheet.now) (read_source form.number (from_words sheet.now)) result table }
{
    read_front(Source::Sheet(sheet), form, &mut [0u16; 0])
}

// Reads a packed file that a reader of that form takes, the words before its rules into the table and those of its
// rules to the front of the words, the variables in order of first use.
pub fn read_packed(
    book: &[u8],
    form: Form,
    table: &mut [u16],
    words: &mut [u16],
) -> Result<Unpacked, Fault>
    requires { max_table_words ≤ length table.old }
    ensures { PackedRead book.now (read_bytes_in form.number book.now) result table.new
        words.old words.new }
{
    let head = read_head(book, form, table)?;
    let front = symbols::front(head.symbols);
    let arities = &symbols::arities(&table[..front]);
    let book = Book { bytes: book };
    let (nodes, cursor) = read_packed_rules(
        book,
        arities,
        words,
        form.number,
        head.rules,
        head.cursor,
    )?;
    if !cursor.is_padding(book) {
        let code = ErrorCode::BadPadding;
        let offset = cursor.at;
        return Err(Fault { code, offset });
    }
    Ok(Unpacked { front, nodes })
}

// Reads a sheet. The cursor of its head tells how many words stand before its rules.
pub fn read_sheet(sheet: &[u16]) -> Result<Head, Fault>
    ensures { SheetRead sheet.now (read_words sheet.now) result }
{
    let form = Form {
        number: format::FORM,
    };
    let head = read_sheet_head(sheet, form)?;
    let unused = variables::unused_at_start(format::FORM);
    let arities = &symbols::arities(&sheet[..head.cursor.at]);
    let end = read_word_rules(arities, sheet, unused, head.rules, head.cursor.at)?;
    if end != sheet.len() {
        let code = ErrorCode::WordsLeftOver;
        return Err(Fault { code, offset: end });
    }
    Ok(head)
}
