// How many rows of ground terms there are, by their nodes and their terms, from how many symbols have each arity.
ghost use Rattle.std.specs.Prelude.{◌≡◌, ℕ, suc, ◌+◌, ◌*◌, ◌/◌, ◌%◌, ◌≤◌, ◌<◌, length};
ghost use Rattle.terms.specs.Signature.{Signature};
ghost use Rattle.symbols.specs.Table.{signature_of, max_table_words};
ghost use Rattle.enumerating.specs.Counts.{row_count, ArityCounts, CellsTo, Cells};

use format::ARITIES;

// How many counts of nodes and of terms are in the table.
pub const CELLS: usize = 64;

// What stands for every number from here on.
const CAP: u64 = 65536;

// How many symbols have each arity.
fn arity_counts(table: &[u16]) -> [u32; ARITIES]
    requires { length table.now ≤ max_table_words }
    ensures { ArityCounts (signature_of table.now) result }
{
    let mut counts = [0u32; ARITIES];
    for f in 0..symbols::count(table) {
        let arity = symbols::arity(table, f as u16);
        if arity < ARITIES {
            counts[arity] += 1;
        }
    }
    counts
}

// How many rows of so many terms have so many nodes.
pub fn cell_at(cells: &[u32; CELLS], nodes: usize, terms: usize) -> u32
    requires { nodes < 8 }
    ensures { (σ : Signature) (to : ℕ) → CellsTo σ to cells.now → 8 * nodes + 8 ≤ to →
        result ≡ row_count σ nodes terms }
{
    if terms < ARITIES {
        cells[ARITIES * nodes + terms]
    } else {
        0
    }
}

// How many rows there are with a term and a node more than that.
fn row_count(counts: &[u32; ARITIES], cells: &[u32; CELLS], nodes: usize, others: usize) -> u32
    requires { (nodes < 8) × (others < 8) }
    ensures { (σ : Signature) → ArityCounts σ counts.now →
        CellsTo σ (8 * nodes + 8) cells.now → result ≡ row_count σ (suc nodes) (suc others) }
{
    let mut total = 0u64;
    for a in 0..ARITIES {
        let rows = cell_at(cells, nodes, a + others);
        total = (total + u64::from(counts[a]) * u64::from(rows)).min(CAP);
    }
    total as u32
}

// The cell at an index, from those before it.
fn next_cell(counts: &[u32; ARITIES], cells: &[u32; CELLS], index: usize) -> u32
    requires { index < 64 }
    ensures { (σ : Signature) → ArityCounts σ counts.now → CellsTo σ index cells.now →
        result ≡ row_count σ (index / 8) (index % 8) }
{
    let nodes = index / ARITIES;
    let terms = index % ARITIES;
    if nodes == 0 {
        return if terms == 0 { 1 } else { 0 };
    }
    if terms == 0 {
        return 0;
    }
    row_count(counts, cells, nodes - 1, terms - 1)
}

// The counts of rows under a symbol table, for up to 7 nodes and 7 terms.
#[derive(Drop)]
pub struct RowCounts<'a> {
    pub table: &'a [u16],
    cells: [u32; CELLS],
    pub ghost short: { length table.now ≤ max_table_words },
    pub ghost counted: { Cells (signature_of table.now) cells },
}

impl<'a> RowCounts<'a> {
    // Without constants there is the row of no terms alone.
    pub fn new(table: &'a [u16]) -> Self
        requires { length table.now ≤ max_table_words }
        ensures { result.table ≡ table.entry }
    {
        let counts = arity_counts(table);
        let mut cells = [0u32; CELLS];
        if counts[0] == 0 {
            cells[0] = 1;
            return RowCounts { table, cells };
        }
        for i in 0..CELLS {
            cells[i] = next_cell(&counts, &cells, i);
        }
        RowCounts { table, cells }
    }

    // How many rows of so many terms have so many nodes.
    pub fn at(&self, nodes: usize, terms: usize) -> u32
        requires { nodes < 8 }
        ensures { result ≡ row_count (signature_of self.now.table.now) nodes terms }
    {
        cell_at(&self.cells, nodes, terms)
    }
}
