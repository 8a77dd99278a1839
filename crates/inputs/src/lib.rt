// Reading the inputs of an operation on a rule file and terms.
#![tactic(auto)]

ghost use Rattle.std.specs.Prelude.{◌≡◌, length};
ghost use Rattle.format.specs.Files.{read_bytes};
ghost use Rattle.operations.specs.Inputs.{read_terms, read_inputs};
ghost use Rattle.symbols.specs.Table.{signature_of, max_table_words};
ghost use Rattle.words.specs.Terms.{reader_of};
ghost use Rattle.reader.specs.Promise.{IsTable};
ghost use Rattle.inputs.specs.Inputs.{TermsRead, BookRead, InputsRead};

use operations::Error;
use reader::Form;
use words::{Extent, front_term};

// How many words of the table are its front, and how many words the terms have.
#[derive(Clone, Copy)]
pub struct Ends {
    pub front: usize,
    pub left: usize,
    pub right: usize,
}

// Reads the left term and then the right one under a symbol table, each to be as much of its words as is said.
fn read_terms(table: &[u16], left: &[u16], right: &[u16], extent: Extent) -> Result<Ends, Error>
    requires { IsTable table.now }
    ensures { TermsRead table.now left.now right.now
        (read_terms (reader_of extent) (signature_of table.now) left.now right.now) result }
{
    let arities = symbols::arities(table);
    let left = front_term(&arities, left, extent).map_err(|fault| fault.in_input(1))?;
    let right = front_term(&arities, right, extent).map_err(|fault| fault.in_input(2))?;
    Ok(Ends {
        front: table.len(),
        left,
        right,
    })
}

// Reads a packed rule file, its symbols into the table, and tells how many words of it are its front.
pub fn read_book(book: &[u8], table: &mut [u16]) -> Result<usize, Error>
    requires { max_table_words ≡ length table.old }
    ensures { BookRead table.new (read_bytes book.now) result }
{
    let mut none = [0u16; 0];
    let form = Form {
        number: format::FORM,
    };
    let unpacked = reader::read_packed(book, form, table, &mut none).map_err(|fault| fault.in_input(
        0,
    ))?;
    Ok(unpacked.front)
}

// Reads a packed rule file, its symbols into the table, and then the terms.
pub fn read_inputs(
    book: &[u8],
    left: &[u16],
    right: &[u16],
    extent: Extent,
    table: &mut [u16],
) -> Result<Ends, Error>
    requires { max_table_words ≡ length table.old }
    ensures { InputsRead table.new left.now right.now
        (read_inputs (reader_of extent) book.now left.now right.now) result }
{
    let front = read_book(book, table)?;
    read_terms(&table[..front], left, right, extent)
}
