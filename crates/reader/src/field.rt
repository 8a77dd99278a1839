// A field of a rule file, from the bits of a packed one or from words.
ghost use Rattle.std.specs.Prelude.{◌≡◌, ◌^◌, ◌≤◌, leb};
ghost use Rattle.format.specs.Errors.{number_of};
ghost use Rattle.answers.specs.Answer.{reading, Below};
ghost use Rattle.bits.specs.Cursor.{told};
ghost use Rattle.reader.specs.Source.{input_of, source_of, tested};

use crate::source::Source;
use answers::Fault;
use bits::BitCursor;
use format::ErrorCode;

// The field of that width at a cursor, which counts the bits of a book, the words of a sheet.
#[inline]
pub fn field(source: Source, cursor: BitCursor, width: usize) -> Result<(usize, BitCursor), Fault>
    requires { (width ≤ 16) }
    ensures result_value { reading (told result) ≡ (source_of (input_of source.entry)).field width cursor.at }
    ensures below { Below (2 ^ width) (told result) }
{
    match source {
        Source::Book(book) => cursor.field(book, width),
        Source::Sheet(sheet) => bits::moved(words::word_below(sheet, cursor.at, 1usize << width)),
    }
}

// The same for a field that is to be at least so much, with that error where it is less.
pub fn field_at_least(
    source: Source,
    cursor: BitCursor,
    width: usize,
    least: usize,
    code: ErrorCode,
) -> Result<(usize, BitCursor), Fault>
    requires { (width ≤ 16) }
    ensures result_value { reading (told result)
        ≡ tested (source_of (input_of source.entry)) width (leb least) (number_of code) cursor.at }
    ensures below { Below (2 ^ width) (told result) }
{
    let (value, next) = field(source, cursor, width)?;
    if value < least {
        let offset = cursor.at;
        return Err(Fault { code, offset });
    }
    Ok((value, next))
}
