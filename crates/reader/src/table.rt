// The symbol table of a rule file with what is tested after its last symbol: one of arity 1 that weighs 0, if there is
// one, is to be ranked above every other.
ghost use Rattle.std.specs.Prelude.{◌≡◌, MatchOption, List, ◌∷◌, false, ℕ, ◌*◌, ◌≤◌, ◌<◌, length};
ghost use Rattle.terms.specs.Signature.{Symbol};
ghost use Rattle.format.specs.Layout.{max_bytes};
ghost use Rattle.format.specs.Forms.{has_coefficients};
ghost use Rattle.format.specs.Symbols.{first_outranked, weight_offset, symbol_table_reader};
ghost use Rattle.symbols.specs.Table.{symbols_in, table_words, symbols_words};
ghost use Rattle.reader.specs.Source.{input_of, source_of, Reached, table_of, Room, Stored};
ghost use Rattle.reader.specs.File.{stored_form};
ghost use Rattle.reader.specs.Symbol.{TableRead};

use crate::header::Header;
use crate::source::Source;
use answers::Fault;
use bits::BitCursor;
use format::{AC_WIDTH, ARITY_WIDTH, ErrorCode};

// The number of the first symbol that is outranked, in the table of a packed file or in the sheet.
fn outranked_in(source: Source, table: &[u16], count: usize) -> Option<usize>
    requires { count < 256 }
    ensures { MatchOption result
        (first_outranked (symbols_in false (table_of (input_of source.entry) table.now) 0 count) ≡ count)
        (λ f. (first_outranked (symbols_in false (table_of (input_of source.entry) table.now) 0 count) ≡ f)
        × (f < count)) }
{
    match source {
        Source::Book(_) => symbols::first_outranked(table, count),
        Source::Sheet(sheet) => symbols::first_outranked(sheet, count),
    }
}

// The offset of the weight of the symbol of that number, where the symbols begin at an offset and have no coefficients.
fn weight_offset(source: Source, at: usize, f: usize) -> usize
    requires { (at ≤ 8 * max_bytes) × (f < 256) }
    ensures { (form : ℕ) (ss : List Symbol) → has_coefficients form ≡ false → f < length ss →
        result ≡ weight_offset (source_of (input_of source.entry)) form at ss f }
{
    match source {
        Source::Book(_) => {
            let before = ARITY_WIDTH + AC_WIDTH;
            at + f * (before + format::WEIGHT_WIDTH + format::RANK_WIDTH) + before
        }
        Source::Sheet(_) => at + f * 4 + 2,
    }
}

// Reads the symbols, those of a packed file and its header into the table, and tests their ranks.
pub fn read_table(
    source: Source,
    table: &mut [u16],
    header: Header,
    cursor: BitCursor,
) -> Result<BitCursor, Fault>
    requires room { Room (input_of source) (table_words header.symbols) table.old }
    requires reached { Reached (input_of source) 4 cursor.at }
    ensures { TableRead
        (symbol_table_reader (source_of (input_of source.entry)) header.form.number header.w0
        header.symbols cursor.at)
        (λ (ss : List Symbol). Stored (input_of source.entry) 0
        (stored_form header.form.number ∷ header.symbols ∷ header.w0 ∷ header.rules ∷ symbols_words ss)
        table.old table.new) result
        (symbols_in false (table_of (input_of source.entry) table.new) 0 header.symbols) }
{
    let (weightless, next) = crate::symbol::read_symbols(source, table, header, cursor)?;
    if !weightless {
        return Ok(next);
    }
    match outranked_in(source, table, header.symbols) {
        Some(low) => {
            let code = ErrorCode::WeightInadmissible;
            let offset = weight_offset(source, cursor.at, low);
            Err(Fault { code, offset })
        }
        None => Ok(next),
    }
}
