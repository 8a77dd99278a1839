// Comparing two terms under a rule file.
#![tactic(auto)]

ghost use Rattle.std.specs.Prelude.{◌≡◌};
ghost use Rattle.terms.specs.Words.{term_of};
ghost use Rattle.symbols.specs.Table.{signature_of};
ghost use Rattle.operations.specs.Inputs.{read_inputs};
ghost use Rattle.operations.specs.Comparing.{comparison, compared};
ghost use Rattle.operations.specs.Enums.{reply_of};
ghost use Rattle.words.specs.Terms.{reader_of};
ghost use Rattle.reader.specs.Promise.{Decoded};
ghost use Rattle.comparing.specs.Related.{RelatedRead};

use format::NODE_WORDS;
use measures::SUMS;
use measures::sums::sum_up;
use operations::{Comparison, Error};
use order::Weighed;
use order::relation::relation;
use weights::{Totals, Weighing, put_node_sums};
use words::Extent;

mod oftenness;

pub use crate::oftenness::oftener;

// How two terms compare, and how many words they have.
#[derive(Clone, Copy)]
pub struct Related {
    pub found: Comparison,
    pub left: usize,
    pub right: usize,
}

// Compares two terms that were read.
fn compare_read(table: &[u16], left: &[u16], right: &[u16]) -> Comparison
    requires { Decoded table.now left.now right.now }
    ensures { result
        ≡ comparison (signature_of table.now) (term_of (signature_of table.now) left.now)
        (term_of (signature_of table.now) right.now) }
{
    let mut adds = [Totals::NONE; NODE_WORDS];
    put_node_sums(table, &mut adds);
    let weighing = Weighing { table, adds: &adds };
    let mut left_sums = [Totals::NONE; SUMS];
    let mut right_sums = [Totals::NONE; SUMS];
    let s = sum_up(&weighing, left, &mut left_sums);
    let t = sum_up(&weighing, right, &mut right_sums);
    let left = Weighed {
        words: left,
        total: s,
    };
    let right = Weighed {
        words: right,
        total: t,
    };
    Comparison {
        relation: relation(&weighing, &left, &left_sums, &right, &right_sums),
        margin: s.margin(t),
    }
}

// Compares the terms at the fronts of their words under a packed rule file, each to be as much of its words as is
// said.
pub fn relate(book: &[u8], left: &[u16], right: &[u16], extent: Extent) -> Result<Related, Error>
    ensures { RelatedRead (read_inputs (reader_of extent) book.now left.now right.now) result }
{
    let mut table = [0u16; symbols::TABLE_WORDS];
    let ends = inputs::read_inputs(book, left, right, extent, &mut table)?;
    Ok(Related {
        found: compare_read(
            &table[..ends.front],
            &left[..ends.left],
            &right[..ends.right],
        ),
        left: ends.left,
        right: ends.right,
    })
}

// Compares two terms, each as its node words, under a packed rule file.
pub fn compare(book: &[u8], left: &[u16], right: &[u16]) -> Result<Comparison, Error>
    ensures { reply_of result ≡ compared book.now left.now right.now }
{
    Ok(relate(book, left, right, Extent::Whole)?.found)
}
