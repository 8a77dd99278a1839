// What marking asks of a symbol table.
ghost use Rattle.symbols.specs.Table.{signature_of};
ghost use Rattle.symbols.specs.Arities.{Arities};
ghost use Rattle.reader.specs.Promise.{IsTable};

use format::NODE_WORDS;
use weights::Weighing;

// A symbol table that was decoded, with how many arguments each node calls for and what it adds to sums. The two
// lifetimes are two, since the borrow checker covers no value at a lifetime common to both.
#[derive(Clone, Copy)]
pub struct Under<'a, 'b> {
    pub arities: &'a [u32; NODE_WORDS],
    pub weighing: Weighing<'b>,
    pub ghost decoded: { IsTable weighing.table.now },
    pub ghost cells: { Arities (signature_of weighing.table.now) arities.now },
}
