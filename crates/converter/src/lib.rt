// Converting a packed file of form 1 into one of form 2.
#![tactic(auto)]

ghost use Rattle.std.specs.Prelude.{◌≡◌, ◌+◌, ◌*◌, ◌^◌, ◌≤◌, ◌<◌, length};
ghost use Rattle.format.specs.Layout.{max_bytes};
ghost use Rattle.operations.specs.Converting.{converted};
ghost use Rattle.operations.specs.Enums.{reply_of};
ghost use Rattle.symbols.specs.Table.{max_table_words};

use format::ErrorCode;
use operations::Error;
use reader::Form;

// How many words the sheet of a file may have: of one of at most 2,048 bytes, and of any.
const MIDDLE_WORDS: usize = symbols::TABLE_WORDS + decoder::MIDDLE_NODES;

const LONG_WORDS: usize = symbols::TABLE_WORDS + decoder::LONG_NODES;

// Converts a packed file into the front of the output, by way of its sheet, of at most so many words, in which the
// variables are in order of first use; nothing is written until no fault is left to find.
fn convert_within<const WORDS: usize>(book: &[u8], out: &mut [u8]) -> Result<usize, Error>
    requires room { length book.now ≤ max_bytes → 5 * max_table_words + 8 * length book.now ≤ 5 * WORDS }
    requires few { WORDS < 2 ^ 32 }
    ensures result_value { reply_of result ≡ (converted book.now out.old).reply }
    ensures out_after { out.new ≡ (converted book.now out.old).output }
{
    let mut sheet = [0u16; WORDS];
    let form = Form {
        number: format::FIRST_FORM,
    };
    let unpacked = decoder::unpack(book, form, &mut sheet).map_err(|fault| fault.in_input(0))?;
    if out.len() < book.len() {
        return Err(Error {
            code: ErrorCode::BytesTooShort,
            input: 1,
            offset: 0,
        });
    }
    let total = unpacked.front + unpacked.nodes;
    encoder::write_items(&sheet[..total], unpacked.front, &mut out[..book.len()]);
    Ok(book.len())
}

// Converts a packed file of form 1 into the front of the output.
pub fn convert(book: &[u8], out: &mut [u8]) -> Result<usize, Error>
    ensures result_value { reply_of result ≡ (converted book.now out.old).reply }
    ensures out_after { out.new ≡ (converted book.now out.old).output }
{
    if book.len() <= decoder::MIDDLE_BYTES {
        convert_within::<MIDDLE_WORDS>(book, out)
    } else {
        convert_within::<LONG_WORDS>(book, out)
    }
}
