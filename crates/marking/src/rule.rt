// Marking one rule.
ghost use Rattle.std.specs.Prelude.{◌≡◌, List, ℕ, ◌*◌, ◌≤◌, length};
ghost use Rattle.format.specs.Layout.{form_number, max_nodes};
ghost use Rattle.format.specs.Reading.{bit_source};
ghost use Rattle.format.specs.Forms.{unused_of};
ghost use Rattle.format.specs.Format.{Sides, nodes_reader, rule_reader};
ghost use Rattle.format.specs.Statements.{IsTerm};
ghost use Rattle.symbols.specs.Table.{signature_of};
ghost use Rattle.reader.specs.Promise.{Decoded};
ghost use Rattle.marking.specs.Rule.{Marks, MarksRead, MarkedWithin};

use crate::Under;
use answers::Fault;
use bits::{BitCursor, Book};
use format::MAX_NODES;
use operations::Mark;
use order::Weighed;
use weights::Weighing;

// A rule's mark and margin, and the cursor past it.
#[derive(Clone, Copy)]
pub struct MarkedRule {
    pub mark: Mark,
    pub margin: i64,
    pub cursor: BitCursor,
}

// Marks a rule with these sides.
fn mark_sides(weighing: &Weighing, left: &[u16], right: &[u16], cursor: BitCursor) -> MarkedRule
    requires { Decoded weighing.now.table.now left.now right.now }
    ensures marks { Marks (signature_of weighing.now.table.now)
        (record { left = left.entry.now; right = right.now }) result }
    ensures cursor_value { result.cursor ≡ cursor }
{
    let left = Weighed {
        words: left,
        total: weighing.total(left),
    };
    let right = Weighed {
        words: right,
        total: weighing.total(right),
    };
    MarkedRule {
        mark: order::mark::mark(weighing, &left, &right),
        margin: left.total.margin(right.total),
        cursor,
    }
}

// Reads the right side of a rule with this left side, after which the variables from a number on are unused, and marks
// the rule.
fn mark_right(
    book: Book,
    under: &Under,
    left: &[u16],
    unused: usize,
    cursor: BitCursor,
) -> Result<MarkedRule, Fault>
    requires cursor_bound { cursor.at ≤ 8 * length book.bytes.now }
    requires left_term { IsTerm (signature_of under.now.weighing.table.now) left.now }
    requires unused_bound { unused ≤ 16 }
    ensures marks_read { MarksRead (signature_of under.now.weighing.table.now)
        (λ (right : List ℕ). record { left = left.entry.now; right = right })
        (nodes_reader (bit_source book.entry.bytes.now) max_nodes unused
        (signature_of under.now.weighing.table.now) cursor.at) result }
    ensures marked_within { MarkedWithin (8 * length book.entry.bytes.now) result }
{
    let mut right = [0u16; MAX_NODES];
    let mut unused = unused;
    let (count, end) = sides::read_side(book, under.arities, &mut right, &mut unused, cursor)?;
    Ok(mark_sides(&under.weighing, left, &right[..count], end))
}

// Reads a rule and marks it.
pub fn mark_rule(book: Book, under: &Under, cursor: BitCursor) -> Result<MarkedRule, Fault>
    requires { cursor.at ≤ 8 * length book.bytes.now }
    ensures marks_read { MarksRead (signature_of under.now.weighing.table.now) (λ (sides : Sides). sides)
        (rule_reader (bit_source book.entry.bytes.now) (unused_of form_number)
        (signature_of under.now.weighing.table.now) cursor.at) result }
    ensures marked_within { MarkedWithin (8 * length book.entry.bytes.now) result }
{
    let mut unused = variables::unused_at_start(format::FORM);
    let mut left = [0u16; MAX_NODES];
    let (count, middle) = sides::read_side(book, under.arities, &mut left, &mut unused, cursor)?;
    mark_right(book, under, &left[..count], unused, middle)
}
