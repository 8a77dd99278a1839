// The examples of the article 000.
// A sheet has a line for the header, each symbol (arity, AC mark, weight, rank) and each rule (left side, right side).
use crate::print::show;
use std::io;

// 000, example 5.3: f > + > g > a > b > h.
#[rattlefmt::skip]
const EXAMPLE_5_3: [u16; 86] = [
    2, 6, 1, 7,                      // form, K, w0, N
    2, 0, 0, 0,                      // h
    0, 0, 1, 1,                      // b
    0, 0, 1, 2,                      // a
    1, 0, 2, 3,                      // g
    2, 1, 0, 4,                      // +
    1, 0, 1, 5,                      // f
    5, 4, 256, 257,  4, 5, 256, 257, // f(x+y) -> f(x)+y
    0, 2, 1,  0, 1, 2,               // h(a,b) -> h(b,a)
    0, 3, 2, 2,  0, 2, 3, 1,         // h(g(a),a) -> h(a,g(b))
    4, 3, 256, 257,  3, 4, 256, 257, // g(x)+y -> g(x+y)
    0, 2, 3, 3, 2,  0, 3, 2, 5, 2,   // h(a,g(g(a))) -> h(g(a),f(a))
    0, 3, 2, 1,  0, 2, 3, 2,         // h(g(a),b) -> h(a,g(a))
    4, 5, 2, 3, 1,  4, 5, 1, 3, 2,   // f(a)+g(b) -> f(b)+g(a)
];

// The same rules from right to left.
#[rattlefmt::skip]
const REVERSED_5_3: [u16; 86] = [
    2, 6, 1, 7,                      // form, K, w0, N
    2, 0, 0, 0,                      // h
    0, 0, 1, 1,                      // b
    0, 0, 1, 2,                      // a
    1, 0, 2, 3,                      // g
    2, 1, 0, 4,                      // +
    1, 0, 1, 5,                      // f
    4, 5, 256, 257,  5, 4, 256, 257, // f(x)+y -> f(x+y)
    0, 1, 2,  0, 2, 1,               // h(b,a) -> h(a,b)
    0, 2, 3, 1,  0, 3, 2, 2,         // h(a,g(b)) -> h(g(a),a)
    3, 4, 256, 257,  4, 3, 256, 257, // g(x+y) -> g(x)+y
    0, 3, 2, 5, 2,  0, 2, 3, 3, 2,   // h(g(a),f(a)) -> h(a,g(g(a)))
    0, 2, 3, 2,  0, 3, 2, 1,         // h(a,g(a)) -> h(g(a),b)
    4, 5, 1, 3, 2,  4, 5, 2, 3, 1,   // f(b)+g(a) -> f(a)+g(b)
];

// 000, example 7.3: g > + > f > a. Its first rule reversed, its second, and its first as it stands.
#[rattlefmt::skip]
const EXAMPLE_7_3: [u16; 52] = [
    2, 4, 1, 3,                                       // form, K, w0, N
    0, 0, 1, 0,                                       // a
    1, 0, 3, 1,                                       // f
    2, 1, 0, 2,                                       // +
    1, 0, 1, 3,                                       // g
    2, 3, 256, 2, 3, 256, 3, 256,  2, 1, 256, 3, 256, // g(x)+(g(x)+g(x)) -> f(x)+g(x)
    1, 256,  2, 3, 256, 0,                            // f(x) -> g(x)+a
    2, 1, 256, 3, 256,  2, 3, 256, 2, 3, 256, 3, 256, // f(x)+g(x) -> g(x)+(g(x)+g(x))
];

// 000, example 9.1, with e for the empty bit sequence.
#[rattlefmt::skip]
const EXAMPLE_9_1: [u16; 58] = [
    2, 4, 1, 5,                               // form, K, w0, N
    0, 0, 1, 0,                               // e
    1, 0, 1, 1,                               // zero
    1, 0, 3, 2,                               // one
    2, 1, 0, 3,                               // +
    3, 0, 1, 0,  0,                           // e+zero(e) -> e
    3, 256, 0,  256,                          // x+e -> x
    3, 1, 256, 1, 257,  1, 3, 256, 257,       // zero(x)+zero(y) -> zero(x+y)
    3, 1, 256, 2, 257,  2, 3, 256, 257,       // zero(x)+one(y) -> one(x+y)
    3, 2, 256, 2, 257,  1, 3, 3, 256, 257, 0, // one(x)+one(y) -> zero((x+y)+e)
];

// 000, example 6.6, for the clause {x, not y, not z}, its symbols x, y and z named p, q and r: true where above +.
#[rattlefmt::skip]
const EXAMPLE_6_6: [u16; 96] = [
    2, 11, 1, 1, // form, K, w0, N
    0, 0, 1, 0,  // c
    0, 0, 9, 1,  // d
    1, 0, 1, 2,  // b
    1, 0, 1, 11, // p
    1, 0, 1, 12, // q
    1, 0, 1, 13, // r
    2, 1, 1, 10, // +
    1, 0, 1, 20, // a
    1, 0, 1, 32, // e0
    1, 0, 1, 31, // e1
    1, 0, 1, 30, // e2
    // b(b(c+c))+p(b(d))+a(e0(e1(c)))+q(e1(e2(c)))+r(e2(e0(c)))
    6, 6, 6, 6, 2, 2, 6, 0, 0, 3, 2, 1, 7, 8, 9, 0, 4, 9, 10, 0, 5, 10, 8, 0,
    // -> b(c)+b(c)+b(p(d))+a(e0(e0(c)))+q(e1(e1(c)))+r(e2(e2(c)))
    6, 6, 6, 6, 6, 2, 0, 2, 0, 2, 3, 1, 7, 8, 8, 0, 4, 9, 9, 0, 5, 10, 10, 0,
];

// Shows example 6.6 with these ranks of p, q and r, and weights of d, and of e0, e1 and e2. The weight of symbol k is
// word 4 * k + 6, its rank the next.
fn show_clause(rt: &impl Print, ranks: [u16; 3], d: u16, weights: [u16; 3]) -> io::Result<()> {
    let [p, q, r] = ranks;
    let [e0, e1, e2] = weights;
    let mut sheet = EXAMPLE_6_6;
    sheet[10] = d;
    sheet[19] = p;
    sheet[23] = q;
    sheet[27] = r;
    sheet[38] = e0;
    sheet[42] = e1;
    sheet[46] = e2;
    crate::print::show_sheet(rt, &sheet)
}

// Where x alone is false, so is the clause.
fn show_false(rt: &impl Print, weights: [u16; 3]) -> io::Result<()> {
    print!(rt; "document 000, example 6.6, x alone false, ")?;
    crate::print::print_numbers(rt, weights.map(u64::from))?;
    show_clause(rt, [3, 12, 13], 1, weights)
}

// 000, the base systems before lemma 6.5 and of section A.3, for two symbols p and q.
#[rattlefmt::skip]
const BASE_SYSTEMS: [u16; 96] = [
    2, 8, 1, 9,              // form, K, w0, N
    0, 0, 1, 0,              // c
    1, 0, 2, 1,              // b
    1, 0, 2, 2,              // p
    2, 1, 1, 3,              // +
    1, 0, 2, 4,              // q
    1, 0, 2, 5,              // a
    1, 0, 1, 7,              // e0
    1, 0, 3, 6,              // e1
    5, 3, 0, 0,  3, 5, 0, 0, // a(c+c) -> a(c)+c
    3, 1, 0, 0,  1, 3, 0, 0, // b(c)+c -> b(c+c)
    5, 1, 1, 0,  1, 5, 5, 0, // a(b(b(c))) -> b(a(a(c)))
    5, 2, 0,  1, 4, 0,       // a(p(c)) -> b(q(c))
    5, 4, 0,  1, 5, 0,       // a(q(c)) -> b(a(c))
    5, 5, 0,  1, 2, 0,       // a(a(c)) -> b(p(c))
    5, 2, 0,  2, 5, 0,       // a(p(c)) -> p(a(c))
    5, 4, 0,  4, 5, 0,       // a(q(c)) -> q(a(c))
    6, 7, 0,  7, 6, 0,       // e0(e1(c)) -> e1(e0(c))
];

// 000, examples 4.6 and 4.9: the second rule is the first in the context + c.
#[rattlefmt::skip]
const CONTEXT_OF_C: [u16; 40] = [
    2, 4, 1, 2,                            // form, K, w0, N
    0, 0, 1, 0,                            // c
    2, 1, 1, 1,                            // +
    1, 0, 1, 2,                            // f
    2, 0, 1, 3,                            // g
    3, 2, 0, 256,  3, 0, 2, 0,             // g(f(c),x) -> g(c,f(c))
    1, 3, 2, 0, 256, 0,  1, 3, 0, 2, 0, 0, // g(f(c),x)+c -> g(c,f(c))+c
];

pub fn run(rt: &impl Print) -> io::Result<()> {
    show(rt, "document 000, example 5.3", &EXAMPLE_5_3)?;
    show(rt, "document 000, example 5.3, reversed", &REVERSED_5_3)?;
    show(rt, "document 000, example 7.3", &EXAMPLE_7_3)?;
    show(rt, "document 000, example 9.1", &EXAMPLE_9_1)?;
    println!(rt; "document 000, example 6.6, x, y and z true")?;
    show_clause(rt, [11, 12, 13], 9, [1, 1, 1])?;
    println!(rt; "document 000, example 6.6, x and z false")?;
    show_clause(rt, [3, 12, 4], 1, [1, 1, 9])?;
    println!(rt; "document 000, example 6.6, x, y and z false")?;
    show_clause(rt, [3, 4, 5], 1, [1, 9, 1])?;
    show_false(rt, [1, 1, 1])?;
    show_false(rt, [1, 1, 9])?;
    show_false(rt, [1, 9, 1])?;
    show_false(rt, [9, 1, 1])?;
    show_false(rt, [5, 7, 9])?;
    show_false(rt, [9, 7, 5])?;
    show(rt, "document 000, base systems of section 6", &BASE_SYSTEMS)?;
    show(rt, "document 000, examples 4.6 and 4.9", &CONTEXT_OF_C)
}
