// One rule of a packed file, by its number: finding where it begins, and marking it there.
#![tactic(auto)]

ghost use Rattle.std.specs.Prelude.{◌≡◌, [], true, ℕ, ◌*◌, ◌≤◌, length, get_or};
ghost use Rattle.terms.specs.Signature.{Signature};
ghost use Rattle.format.specs.Layout.{form_number};
ghost use Rattle.format.specs.Reading.{bit_source};
ghost use Rattle.format.specs.Reading.Reading.{got};
ghost use Rattle.format.specs.Forms.{is_taken, unused_of};
ghost use Rattle.format.specs.Format.{Sides, rule_reader};
ghost use Rattle.operations.specs.Jobs.{book_marks};
ghost use Rattle.format.specs.Statements.{Unscaled};
ghost use Rattle.symbols.specs.Table.{signature_of};
ghost use Rattle.symbols.specs.Arities.{Arities};
ghost use Rattle.reader.specs.Source.Input.{from_bytes};
ghost use Rattle.reader.specs.File.{rest_reader};
ghost use Rattle.reader.specs.Promise.{IsTable};
ghost use Rattle.marking.specs.Rule.{sides_mark};
ghost use Rattle.seeking.specs.declared.Standing.TheVariants.{Left};
ghost use Rattle.seeking.specs.One.{standing_in, file_standing, RuleSkipped, RulesSkipped, SkippedWithin};

use answers::Fault;
use bits::{BitCursor, Book};
use format::{MAX_NODES, NODE_WORDS};
use marking::Under;
use reader::Form;
use weights::{Totals, Weighing};

// How a packed file stands of which so many rules are marked: it is refused or has fewer rules, it has no others, or
// the next begins at a bit.
#[derive(Clone, Copy)]
pub enum Standing {
    Bad,
    Done,
    Left { at: usize },
}

// Reads past a rule. `sides::read_rule_into` is left to one caller, of whose loop it is then made part.
fn skip_rule(book: Book, arities: &[u32; NODE_WORDS], cursor: BitCursor) -> Result<BitCursor, Fault>
    requires { cursor.at ≤ 8 * length book.bytes.now }
    ensures rule_skipped { (σ : Signature) → Arities σ arities.now → Unscaled σ →
        RuleSkipped (rule_reader (bit_source book.entry.bytes.now) (unused_of form_number) σ cursor.at) result }
    ensures within { SkippedWithin (8 * length book.entry.bytes.now) result }
{
    let mut unused = variables::unused_at_start(format::FORM);
    let mut side = [0u16; MAX_NODES];
    let (_, middle) = sides::read_side(book, arities, &mut side, &mut unused, cursor)?;
    let (_, end) = sides::read_side(book, arities, &mut side, &mut unused, middle)?;
    Ok(end)
}

// Reads past that many rules.
fn skip_rules(
    book: Book,
    arities: &[u32; NODE_WORDS],
    count: usize,
    cursor: BitCursor,
) -> Result<BitCursor, Fault>
    requires { cursor.at ≤ 8 * length book.bytes.now }
    ensures rules_skipped { (σ : Signature) → Arities σ arities.now → Unscaled σ →
        RulesSkipped (bit_source book.entry.bytes.now) (unused_of form_number) σ count cursor.at result }
    ensures within { SkippedWithin (8 * length book.entry.bytes.now) result }
{
    let mut here = cursor;
    for _i in 0..count {
        here = skip_rule(book, arities, here)?;
    }
    Ok(here)
}

// Reads the rules under a symbol table, that many of them, to the end of the file; `marked` of them are marked.
fn find_after(book: Book, table: &[u16], marked: usize, count: usize, first: BitCursor) -> Standing
    requires cursor_bound { first.at ≤ 8 * length book.bytes.now }
    requires table { IsTable table.now }
    ensures { (form : ℕ) → is_taken form_number form ≡ true →
        result
        ≡ standing_in marked
        (rest_reader form (from_bytes book.entry.bytes.now) (signature_of table.now) count first.at) }
{
    if count < marked {
        return Standing::Bad;
    }
    let arities = symbols::arities(table);
    let Ok(start) = skip_rules(book, &arities, marked, first) else {
        return Standing::Bad;
    };
    let Ok(end) = skip_rules(book, &arities, count - marked, start) else {
        return Standing::Bad;
    };
    if !end.is_padding(book) {
        return Standing::Bad;
    }
    if marked < count {
        return Standing::Left { at: start.at };
    }
    Standing::Done
}

// Reads a packed file, and finds the rule that the count of those marked numbers.
pub fn find_next(book: &[u8], marked: usize) -> Standing
    ensures { result ≡ file_standing book.now marked }
{
    let mut table = [0u16; symbols::TABLE_WORDS];
    let form = Form {
        number: format::FORM,
    };
    match reader::read_head(book, form, &mut table) {
        Err(_) => Standing::Bad,
        Ok(head) => {
            let front = symbols::front(head.symbols);
            find_after(
                Book { bytes: book },
                &table[..front],
                marked,
                head.rules,
                head.cursor,
            )
        }
    }
}

// The mark of the rule that begins at a bit, under a symbol table, 0 where none is read. `mark_rule` is left to one
// caller, of whose loop it is then made part.
fn mark_there(book: Book, table: &[u16], cursor: BitCursor) -> u8
    requires cursor_bound { cursor.at ≤ 8 * length book.bytes.now }
    requires table { IsTable table.now }
    ensures { (sides : Sides) (next : ℕ) →
        rule_reader (bit_source book.entry.bytes.now) (unused_of form_number) (signature_of table.now)
        cursor.at ≡ got sides next → result ≡ sides_mark (signature_of table.now) sides }
{
    let arities = symbols::arities(table);
    let mut adds = [Totals::NONE; NODE_WORDS];
    weights::put_node_sums(table, &mut adds);
    let weighing = Weighing { table, adds: &adds };
    let under = Under {
        arities: &arities,
        weighing,
    };
    let mut marks = [0u8; 1];
    let mut none = [0i64; 0];
    let _ = marking::walk::mark_rules(book, &under, &mut marks, &mut none, 1, cursor);
    marks[0]
}

// The mark of the rule that begins at a bit of a packed file, 0 where none does.
pub fn mark_at(book: &[u8], at: usize) -> u8
    requires { at ≤ 8 * length book.now }
    ensures { (marked : ℕ) → file_standing book.now marked ≡ Left at →
        result ≡ get_or (book_marks book.now) marked 0 }
{
    let mut table = [0u16; symbols::TABLE_WORDS];
    let form = Form {
        number: format::FORM,
    };
    match reader::read_head(book, form, &mut table) {
        Err(_) => 0,
        Ok(head) => {
            let front = symbols::front(head.symbols);
            mark_there(Book { bytes: book }, &table[..front], BitCursor { at })
        }
    }
}
