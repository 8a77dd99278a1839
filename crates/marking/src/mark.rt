// The operation that marks the rules of a packed file.
ghost use Rattle.std.specs.Prelude.{◌≡◌};
ghost use Rattle.operations.specs.Marking.{marked};
ghost use Rattle.operations.specs.Enums.{reply_of};

use crate::walk::{Marked, mark_file};
use format::{ErrorCode, MAX_RULES};
use operations::{Error, Summary};

// Marks the rules of a packed file, a byte for each at the front of the marks. They are kept elsewhere until no fault
// is left to find.
pub fn mark(book: &[u8], marks: &mut [u8]) -> Result<Summary, Error>
    ensures result_value { reply_of result ≡ (marked book.now marks.old).reply }
    ensures marks_after { marks.new ≡ (marked book.now marks.old).output }
{
    let mut found = [0u8; MAX_RULES];
    match mark_file(book, &mut found, &mut [0i64; 0]) {
        Err(fault) => Err(fault.in_input(0)),
        Ok(Marked { rules, decreasing }) => {
            if marks.len() < rules {
                let code = ErrorCode::MarksTooShort;
                return Err(Error {
                    code,
                    input: 1,
                    offset: 0,
                });
            }
            marks[..rules].copy_from_slice(&found[..rules]);
            Ok(Summary {
                rules,
                decreasing,
                score: marks::score(decreasing, rules),
            })
        }
    }
}
