// Listing rows of ground terms: a walk over the symbols that never comes to a row that cannot be completed. The rows of
// so many terms with so many nodes are the same after every front, so they are found once and copied from then on.
ghost use Rattle.std.specs.Prelude.{◌≡◌, ◌+◌, ◌-◌, ◌≤◌, ◌<◌, length, MatchOption};
ghost use Rattle.symbols.specs.Table.{signature_of};
ghost use Rattle.enumerating.specs.Rows.{next_from, count_of};
ghost use Rattle.enumerating.specs.Walk.{Ready, Walked};

use crate::counts::{CELLS, RowCounts};
use crate::rows::{copy_rows, put_row};
use format::ARITIES;

// Where the rows of a cell are stored.
#[derive(Clone, Copy)]
pub struct Block {
    start: u32,
    end: u32,
}

// Those of each cell whose rows are.
pub type Blocks = [Option<Block>; CELLS];

impl RowCounts<'_> {
    // The first symbol from a number on that so many nodes and other terms may come after.
    fn next_symbol(&self, nodes: usize, others: usize, from: u16) -> Option<u16>
        requires { (nodes < 8) × (others < 8) × (from ≤ count_of (signature_of self.now.table.now)) }
        ensures { MatchOption result
            (next_from (signature_of self.now.table.now) nodes others from
            (count_of (signature_of self.now.table.now) - from)
            ≡ count_of (signature_of self.now.table.now))
            (λ f. (f < count_of (signature_of self.now.table.now))
            × (f ≡ next_from (signature_of self.now.table.now) nodes others from
            (count_of (signature_of self.now.table.now) - from))) }
    {
        for f in from..symbols::count(self.table) as u16 {
            if self.at(nodes, symbols::arity(self.table, f) + others) > 0 {
                return Some(f);
            }
        }
        None
    }

    // Stores all rows of so many terms that have so many nodes, each after the front of a row; where the words end.
    // Seven parameters, since a struct that lends `row` and `out` would have to say that each loan stays the same.
    pub fn walk(
        &self,
        blocks: &mut Blocks,
        nodes: usize,
        terms: usize,
        row: &mut [u16],
        out: &mut [u16],
        at: usize,
    ) -> usize
        requires { Ready (signature_of self.now.table.now) blocks.old nodes terms row.old
            (length row.old) out.old at }
        ensures { Walked (signature_of self.now.table.now) nodes terms row.old (length row.old) out.old at result
            blocks.new row.new out.new }
    {
        if nodes == 0 {
            put_row(out, at, row);
            return at + row.len();
        }
        let front = row.len() - nodes;
        let index = ARITIES * nodes + terms;
        if let Some(block) = blocks[index] {
            let start = block.start as usize;
            let count = block.end as usize - start;
            copy_rows(out, start, at, count, row, front);
            return at + count;
        }
        let mut end = at;
        let mut from = 0;
        while let Some(f) = self.next_symbol(nodes - 1, terms - 1, from) {
            row[front] = f;
            let called = symbols::arity(self.table, f) + (terms - 1);
            end = self.walk(blocks, nodes - 1, called, row, out, end);
            from = f + 1;
        }
        blocks[index] = Some(Block {
            start: at as u32,
            end: end as u32,
        });
        end
    }
}
