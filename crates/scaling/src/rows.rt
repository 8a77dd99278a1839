// What each node word counts: its own weight, its coefficients and its arity.
ghost use Rattle.std.specs.Prelude.{◌≡◌, ◌≤◌, length, replicate};
ghost use Rattle.terms.specs.Signature.{Admissible};
ghost use Rattle.symbols.specs.Table.{signature_of, max_table_words};
ghost use Rattle.scaling.specs.Scaled.{no_row, RowOf, NodeRows, Ranged};

// What a node word counts; the coefficients are the digits of the row, the last one lowest.
#[derive(Clone, Copy)]
pub struct NodeRow {
    pub weight: u64,
    pub row: u64,
    pub arity: usize,
}

fn node_row(table: &[u16], word: u16) -> NodeRow
    ensures { RowOf (signature_of table.now) word result }
{
    let weight = if word < format::FIRST_VARIABLE {
        symbols::weight(table, word)
    } else {
        symbols::variable_weight(table)
    };
    let row = symbols::row(table, word);
    let arity = symbols::arity(table, word);
    NodeRow { weight, row, arity }
}

// Stores what the node words from one on count.
fn put_range(table: &[u16], rows: &mut [NodeRow; format::NODE_WORDS], from: usize, to: usize)
    requires { (from ≤ to) × (to ≤ 272) × (length rows.old ≡ 272) }
    ensures { Ranged (signature_of table.now) from to rows.old rows.new × (length rows.new ≡ 272) }
{
    for u in from..to {
        rows[u] = node_row(table, u as u16);
    }
}

// Stores what all node words count, where nothing is stored yet.
pub fn put_node_rows(table: &[u16], rows: &mut [NodeRow; format::NODE_WORDS])
    requires { (length table.now ≤ max_table_words) × (rows.old ≡ replicate 272 no_row)
        × Admissible (signature_of table.now) }
    ensures { NodeRows (signature_of table.now) rows.new }
{
    put_range(table, rows, 0, symbols::count(table));
    put_range(
        table,
        rows,
        format::FIRST_VARIABLE as usize,
        format::NODE_WORDS,
    );
}

// A symbol table, with what each node word counts.
#[derive(Clone, Copy)]
pub struct Weighing<'a> {
    pub table: &'a [u16],
    pub rows: &'a [NodeRow; format::NODE_WORDS],
    pub ghost stored: { NodeRows (signature_of table.now) rows.now },
}
