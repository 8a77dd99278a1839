// What each node word adds to the sums: its weight, and its digits among the variables 0 to 7 and 8 to 15.
ghost use Rattle.std.specs.Prelude.{◌≡◌, ◌≤◌, length, replicate};
ghost use Rattle.terms.specs.Signature.{Ones};
ghost use Rattle.format.specs.Statements.{IsTerm};
ghost use Rattle.symbols.specs.Table.{signature_of, max_table_words};
ghost use Rattle.weights.specs.Totals.{Totalled};
ghost use Rattle.weights.specs.Nodes.{none, node_words, NodeSums, Weighed, Occurring};

use crate::digits::occurrence;
use crate::totals::Totals;
use format::{FIRST_VARIABLE, NODE_WORDS};

// Stores the weights of that many symbols.
fn put_weights(table: &[u16], adds: &mut [Totals; NODE_WORDS], count: usize)
    requires { (count ≤ 256) × (length adds.old ≡ node_words) }
    ensures { Weighed (signature_of table.now) count adds.old adds.new
        × (length adds.new ≡ node_words) }
{
    for f in 0..count {
        let weight = symbols::weight(table, f as u16);
        adds[f] = Totals {
            weight,
            ..Totals::NONE
        };
    }
}

// Stores what the variables add.
fn put_variables(table: &[u16], adds: &mut [Totals; NODE_WORDS])
    requires { length adds.old ≡ node_words }
    ensures { Occurring (signature_of table.now) 272 adds.old adds.new
        × (length adds.new ≡ node_words) }
{
    let weight = symbols::variable_weight(table);
    for word in FIRST_VARIABLE as usize..NODE_WORDS {
        adds[word] = Totals {
            weight,
            low: occurrence(32, word),
            high: occurrence(33, word),
        };
    }
}

// Stores what each node word adds to the sums, where nothing is stored yet and every coefficient is 1. They are lent,
// since as an answer they would be copied.
pub fn put_node_sums(table: &[u16], adds: &mut [Totals; NODE_WORDS])
    requires table_len_bound { (length table.now ≤ max_table_words) × Ones (signature_of table.now) }
    requires adds_value { adds.old ≡ replicate node_words none }
    ensures { NodeSums (signature_of table.now) adds.new }
{
    put_weights(table, adds, symbols::count(table));
    put_variables(table, adds);
}

// A symbol table, with what each node word adds to the sums.
#[derive(Clone, Copy)]
pub struct Weighing<'a> {
    pub table: &'a [u16],
    pub adds: &'a [Totals; NODE_WORDS],
    pub ghost stored: { NodeSums (signature_of table.now) adds.now },
}

impl Weighing<'_> {
    // The sums over a term.
    pub fn total(&self, words: &[u16]) -> Totals
        requires { IsTerm (signature_of self.now.table.now) words.now }
        ensures { Totalled (signature_of self.now.table.now) words.now result }
    {
        let mut here = Totals::NONE;
        for word in words {
            here = here + self.adds[usize::from(*word)];
        }
        here
    }
}
