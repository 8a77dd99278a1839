// Decoding: a packed file as words, a word for each field.
#![tactic(auto)]

ghost use Rattle.std.specs.Prelude.{◌≡◌, false, ◌*◌, ◌^◌, ◌≤◌, ◌<◌, length};
ghost use Rattle.format.specs.Layout.{max_bytes};
ghost use Rattle.format.specs.Files.{read_bytes_in};
ghost use Rattle.operations.specs.Coding.{decoded};
ghost use Rattle.operations.specs.Enums.{reply_of};
ghost use Rattle.decoder.specs.Sheet.{SheetRead};

use answers::Fault;
use format::ErrorCode;
use operations::Error;
use reader::{Form, Unpacked};

// A node takes five bits or more: so many nodes at most are in a file of at most 256 bytes, in one of at most 2,048,
// and in any.
const SHORT_NODES: usize = 410;

pub const MIDDLE_NODES: usize = 3277;

pub const LONG_NODES: usize = 52429;

const SHORT_BYTES: usize = 256;

pub const MIDDLE_BYTES: usize = 2048;

// Reads a packed file that a reader of that form takes, and stores its sheet at the front of the words, where there is
// room for it: the words before its rules, and then those of its rules, at most so many, which are kept elsewhere until
// no fault is left to find.
fn unpack_within<const NODES: usize>(
    book: &[u8],
    form: Form,
    words: &mut [u16],
) -> Result<Unpacked, Fault>
    requires book_bound { length book.now ≤ max_bytes → 8 * length book.now ≤ 5 * NODES }
    requires few { NODES < 2 ^ 32 }
    ensures { SheetRead book.now (read_bytes_in form.number book.now) result words.old
        words.new }
{
    let mut table = [0u16; symbols::TABLE_WORDS];
    let mut rules = [0u16; NODES];
    let Unpacked { front, nodes } = reader::read_packed(book, form, &mut table, &mut rules)?;
    let total = front + nodes;
    if total <= words.len() {
        words[..front].copy_from_slice(&table[..front]);
        words[front..total].copy_from_slice(&rules[..nodes]);
    }
    Ok(Unpacked { front, nodes })
}

// The same, with room for the nodes by the length of the file.
pub fn unpack(book: &[u8], form: Form, words: &mut [u16]) -> Result<Unpacked, Fault>
    ensures { SheetRead book.now (read_bytes_in form.number book.now) result words.old
        words.new }
{
    if book.len() <= SHORT_BYTES {
        unpack_within::<SHORT_NODES>(book, form, words)
    } else if book.len() <= MIDDLE_BYTES {
        unpack_within::<MIDDLE_NODES>(book, form, words)
    } else {
        unpack_within::<LONG_NODES>(book, form, words)
    }
}

// Decodes a packed file into the front of the words.
pub fn decode(book: &[u8], words: &mut [u16]) -> Result<usize, Error>
    ensures result_value { reply_of result ≡ (decoded book.now words.old).reply }
    ensures words_after { words.new ≡ (decoded book.now words.old).output }
{
    let form = Form {
        number: format::FORM,
    };
    let sheet = unpack(book, form, words).map_err(|fault| fault.in_input(0))?;
    let total = sheet.front + sheet.nodes;
    if words.len() < total {
        return Err(Error {
            code: ErrorCode::WordsTooShort,
            input: 1,
            offset: 0,
        });
    }
    Ok(total)
}
