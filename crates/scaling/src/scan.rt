// The words of a term from left to right: the products for the terms that are called for, and the sum of the weights.
ghost use Rattle.std.specs.Prelude.{◌≡◌, [], ◌∷◌, ◌+◌, ◌-◌, ◌*◌, ◌≤◌, ◌<◌, length, get_or};
ghost use Rattle.terms.specs.Signature.{symbol_of};
ghost use Rattle.symbols.specs.Table.{signature_of};
ghost use Rattle.scaling.specs.Scaled.{limit, cut as cutOff, push_row, listed, step, row_in};

use crate::rows::Weighing;

// How many products a term calls for at most, and room for one that is stored past them.
const STACK: usize = 129;

// One more than a side may weigh.
const LIMIT: u64 = 0x1_0000_0000;

// The number, cut off at the limit.
pub fn cut(n: u64) -> u64
    ensures { result ≡ cutOff n }
{
    n.min(LIMIT)
}

// Puts m times each of so many coefficients on the stack, the last one first. They are the digits of the row, the last
// one lowest.
pub fn push(products: &mut [u64; STACK], top: usize, m: u64, row: u64, count: usize)
    requires { (m ≤ limit) × (top + count ≤ 128) × (length products.old ≡ 129) }
    ensures pushed { listed products.new (top + count) ≡ push_row m count row (listed products.old top) }
    ensures products_len { length products.new ≡ 129 }
{
    let mut digits = row;
    for end in top..top + count {
        products[end] = cut(m * (digits % 16));
        digits /= 16;
    }
}

// The products for the terms that are called for, the next term's on top, and the sum of the weights so far.
#[derive(Drop)]
pub struct Scan {
    products: [u64; STACK],
    top: usize,
    pub sum: u64,
    ghost room: { length products ≡ 129 },
}

impl Scan {
    // The root's product, and no words yet.
    #[inline]
    pub fn new() -> Self
        ensures { (listed result.products result.top ≡ 1 ∷ []) × (result.sum ≡ 0) }
    {
        let mut products = [0u64; STACK];
        products[0] = 1;
        Scan {
            products,
            top: 1,
            sum: 0,
        }
    }

    // The next term's product.
    #[inline]
    pub fn product(&self) -> u64
        requires { (0 < self.now.top) × (self.now.top ≤ 128) }
        ensures { result ≡ get_or self.now.products (self.now.top - 1) 0 }
    {
        self.products[self.top - 1]
    }

    // Takes a term's product from the stack and puts those of its arguments there, by the word of its root. Two are
    // stored also where it has fewer arguments, past the top: no processor foresees a branch on the arity. The sum stops
    // at the greatest number of 64 bits, which no term's reaches.
    pub fn advance(&mut self, weighing: &Weighing, word: u16)
        requires node_word { word < 272 }
        requires called { (0 < self.old.top) × (self.old.top ≤ 128)
            × (self.old.top - 1 + (symbol_of (signature_of weighing.now.table.now) word).arity ≤ 128)
            × (get_or self.old.products (self.old.top - 1) 0 ≤ limit) }
        ensures products_after { listed self.new.products self.new.top
            ≡ step (signature_of weighing.now.table.now) (listed self.old.products self.old.top) word }
        ensures sum_after { self.old.sum ≤ 35747322042253312 →
            self.new.sum
            ≡ self.old.sum + get_or self.old.products (self.old.top - 1) 0 * (row_in weighing.now.rows.now word).weight }
    {
        let node = weighing.rows[word as usize];
        let below = self.top - 1;
        let m = self.products[below];
        self.sum = self.sum.saturating_add(m * node.weight);
        self.products[below] = cut(m * (node.row % 16));
        self.products[below + 1] = cut(m * (node.row / 16 % 16));
        if node.arity > 2 {
            push(
                &mut self.products,
                below + 2,
                m,
                node.row / 16 / 16,
                node.arity - 2,
            );
        }
        self.top = below + node.arity;
    }
}
