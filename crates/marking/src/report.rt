// The text that `marker` prints.
ghost use Rattle.std.specs.Prelude.{◌≡◌, ◌≤◌, length};
ghost use Rattle.std.proofs.lemmas.List.Edits.{sets};
ghost use Rattle.operations.specs.Report.{report as reportOf};

use crate::walk::{Marked, mark_file};
use format::MAX_RULES;
use text::Text;

// Room for the longest text.
pub const TEXT_BYTES: usize = 65536;

// Writes what `marker` prints for a packed file at the front of a buffer, and gives its length.
pub fn report(book: &[u8], out: &mut [u8; TEXT_BYTES]) -> usize
    ensures value { (result ≡ length (reportOf book.now)) × (result ≤ 65536) }
    ensures out_after { out.new ≡ sets out.old 0 (reportOf book.now) }
{
    let mut marks = [0u8; MAX_RULES];
    let mut margins = [0i64; MAX_RULES];
    match mark_file(book, &mut marks, &mut margins) {
        Err(fault) => lines::put_refusal(
            out,
            u64::from(answers::number(fault.code)),
            fault.offset as u64,
        ),
        Ok(Marked { rules, decreasing }) => {
            let mut text = Text::new(out);
            lines::push_count(&mut text, b"rules", rules as u64);
            lines::push_rules(&mut text, &marks[..rules], &margins[..rules]);
            lines::push_summary(&mut text, decreasing, rules);
            text.end
        }
    }
}
