// The walk over the rules of a packed file: each is read and marked, and its mark and margin are stored.
ghost use Rattle.std.specs.Prelude.{◌≡◌, [], true, ℕ, ◌*◌, ◌≤◌, ◌<◌, length};
ghost use Rattle.format.specs.Layout.{form_number};
ghost use Rattle.format.specs.Reading.{bit_source};
ghost use Rattle.format.specs.Forms.{is_taken, unused_of};
ghost use Rattle.format.specs.Format.{rules_reader};
ghost use Rattle.format.specs.Files.{read_bytes};
ghost use Rattle.symbols.specs.Table.{signature_of};
ghost use Rattle.answers.specs.Answer.{Within};
ghost use Rattle.bits.specs.Cursor.{told};
ghost use Rattle.reader.specs.Source.Input.{from_bytes};
ghost use Rattle.reader.specs.File.{rest_reader};
ghost use Rattle.reader.specs.Promise.{IsTable};
ghost use Rattle.marking.specs.Rule.{AllMarked, WholeMarked};

use crate::Under;
use crate::rule::mark_rule;
use answers::Fault;
use bits::{BitCursor, Book};
use format::{ErrorCode, NODE_WORDS};
use reader::Form;
use weights::{Totals, Weighing};

// How many rules a file has, and how many of them decrease.
#[derive(Clone, Copy)]
pub struct Marked {
    pub rules: usize,
    pub decreasing: usize,
}

// Reads that many rules, marks them and counts those that decrease. Marks and margins are two lists, and no list of
// both, since `mark` keeps marks alone: a list of both would be sixteen times as long to clear there.
pub fn mark_rules(
    book: Book,
    under: &Under,
    marks: &mut [u8],
    margins: &mut [i64],
    count: usize,
    cursor: BitCursor,
) -> Result<(usize, BitCursor), Fault>
    requires cursor_bound { cursor.at ≤ 8 * length book.bytes.now }
    requires count_in_bounds { (count ≤ length marks.old) × (count < 1024) }
    ensures all_marked { AllMarked (signature_of under.now.weighing.table.now)
        (rules_reader (bit_source book.entry.bytes.now) (unused_of form_number)
        (signature_of under.now.weighing.table.now) count cursor.at)
        (told result) marks.old marks.new margins.old margins.new }
    ensures within { Within count (8 * length book.entry.bytes.now) (told result) }
{
    let mut here = cursor;
    let mut decreasing = 0;
    for i in 0..count {
        let rule = mark_rule(book, under, here)?;
        let mark = marks::number(rule.mark);
        marks[i] = mark;
        marks::put_margin(margins, i, rule.margin);
        decreasing += marks::decreases(mark);
        here = rule.cursor;
    }
    Ok((decreasing, here))
}

// Marks the rules under a symbol table, and reads on to the end of the file.
fn mark_under(
    book: Book,
    table: &[u16],
    marks: &mut [u8],
    margins: &mut [i64],
    count: usize,
    cursor: BitCursor,
) -> Result<Marked, Fault>
    requires cursor_bound { cursor.at ≤ 8 * length book.bytes.now }
    requires table { IsTable table.now × (count < 1024) × (1023 ≤ length marks.old) }
    ensures { (form : ℕ) → is_taken form_number form ≡ true →
        WholeMarked
        (rest_reader form (from_bytes book.entry.bytes.now) (signature_of table.now) count cursor.at) result
        marks.old marks.new margins.old margins.new }
{
    let arities = symbols::arities(table);
    let mut adds = [Totals::NONE; NODE_WORDS];
    weights::put_node_sums(table, &mut adds);
    let weighing = Weighing { table, adds: &adds };
    let under = Under {
        arities: &arities,
        weighing,
    };
    let (decreasing, end) = mark_rules(book, &under, marks, margins, count, cursor)?;
    if !end.is_padding(book) {
        let code = ErrorCode::BadPadding;
        let offset = end.at;
        return Err(Fault { code, offset });
    }
    let rules = count;
    Ok(Marked { rules, decreasing })
}

// Reads a packed file and marks its rules: the marks are stored, and the margins as far as there is room.
pub fn mark_file(book: &[u8], marks: &mut [u8], margins: &mut [i64]) -> Result<Marked, Fault>
    requires { 1023 ≤ length marks.old }
    ensures { WholeMarked (read_bytes book.now) result marks.old marks.new
        margins.old margins.new }
{
    let mut table = [0u16; symbols::TABLE_WORDS];
    let form = Form {
        number: format::FORM,
    };
    let head = reader::read_head(book, form, &mut table)?;
    let front = symbols::front(head.symbols);
    mark_under(
        Book { bytes: book },
        &table[..front],
        marks,
        margins,
        head.rules,
        head.cursor,
    )
}
