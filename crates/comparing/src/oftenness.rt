// The variable test of two terms under a rule file.
ghost use Rattle.std.specs.Prelude.{◌≡◌};
ghost use Rattle.terms.specs.Words.{term_of};
ghost use Rattle.terms.specs.Oftener.{first_oftener};
ghost use Rattle.symbols.specs.Table.{signature_of};
ghost use Rattle.reader.specs.Promise.{Decoded};
ghost use Rattle.operations.specs.Variables.{oftener as oftenerOf};
ghost use Rattle.operations.specs.Enums.{reply_of};

use format::{NODE_WORDS, VARIABLES};
use operations::Error;
use weights::{Totals, Weighing, put_node_sums};
use words::Extent;

// The variable test of two terms that were read.
fn oftener_read(table: &[u16], left: &[u16], right: &[u16]) -> usize
    requires { Decoded table.now left.now right.now }
    ensures { result
        ≡ first_oftener (signature_of table.now) (term_of (signature_of table.now) left.now)
        (term_of (signature_of table.now) right.now) }
{
    let mut adds = [Totals::NONE; NODE_WORDS];
    put_node_sums(table, &mut adds);
    let weighing = Weighing { table, adds: &adds };
    weighing
        .total(left)
        .first_oftener(weighing.total(right))
        .unwrap_or(VARIABLES)
}

// The first variable that occurs oftener in the right term, 16 if none does, under a packed rule file.
pub fn oftener(book: &[u8], left: &[u16], right: &[u16]) -> Result<usize, Error>
    ensures { reply_of result ≡ oftenerOf book.now left.now right.now }
{
    let mut table = [0u16; symbols::TABLE_WORDS];
    let ends = inputs::read_inputs(book, left, right, Extent::Whole, &mut table)?;
    Ok(oftener_read(
        &table[..ends.front],
        &left[..ends.left],
        &right[..ends.right],
    ))
}
