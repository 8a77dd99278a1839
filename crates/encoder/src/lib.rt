// Encoding a rule file: from its words to its packed form.
#![tactic(auto)]

ghost use Rattle.std.specs.Prelude.{◌≡◌};
ghost use Rattle.operations.specs.Coding.{encoded};
ghost use Rattle.operations.specs.Enums.{reply_of};

use crate::items::packed_bits;
use format::ErrorCode;
use operations::Error;

mod items;

pub use crate::items::write_items;

// Writes the packed form of a file to the front of the bytes.
pub fn encode(words: &[u16], bytes: &mut [u8]) -> Result<usize, Error>
    ensures result_value { reply_of result ≡ (encoded words.now bytes.old).reply }
    ensures bytes_after { bytes.new ≡ (encoded words.now bytes.old).output }
{
    let head = reader::read_sheet(words).map_err(|fault| fault.in_input(0))?;
    let front = head.cursor.at;
    let count = packed_bits(words, head.symbols, front).div_ceil(8);
    if format::MAX_BYTES < count {
        return Err(Error {
            code: ErrorCode::FileTooLong,
            input: 0,
            offset: 0,
        });
    }
    if bytes.len() < count {
        return Err(Error {
            code: ErrorCode::BytesTooShort,
            input: 1,
            offset: 0,
        });
    }
    write_items(words, front, &mut bytes[..count]);
    Ok(count)
}
