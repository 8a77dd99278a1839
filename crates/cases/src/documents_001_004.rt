// The examples of the articles 001 and 004, and those that 000 and 004 share.
// A sheet has a line for the header, each symbol (arity, AC mark, weight, rank) and each rule (left side, right side).
use crate::print::show;
use std::io;

// 000, examples 4.5, 4.8 and 4.11, and 004, examples 3.7 and 3.9: f weighs 0.
#[rattlefmt::skip]
const SYMBOL_OVER_VARIABLE: [u16; 29] = [
    2, 3, 1, 3,                   // form, K, w0, N
    0, 0, 1, 0,                   // c
    2, 1, 1, 1,                   // +
    1, 0, 0, 2,                   // f
    2, 0,  0,                     // f(c) -> c
    2, 256,  256,                 // f(x) -> x
    1, 2, 256, 257,  1, 256, 257, // f(x)+y -> x+y
];

// 000, examples 3.2 and 4.3, and 004, example 3.4 and section 4: rule 2 both ways, and rule 1; f weighs 0.
#[rattlefmt::skip]
const SYSTEM_R1: [u16; 45] = [
    2, 3, 1, 3,                    // form, K, w0, N
    0, 0, 1, 1,                    // a
    2, 1, 0, 0,                    // +
    1, 0, 0, 2,                    // f
    1, 0, 2, 2, 0,  1, 2, 0, 2, 0, // a+f(f(a)) -> f(a)+f(a)
    1, 2, 0, 2, 0,  1, 0, 2, 2, 0, // f(a)+f(a) -> a+f(f(a))
    2, 1, 0, 0,  1, 2, 0, 2, 0,    // f(a+a) -> f(a)+f(a)
];

// Shows the system under a title, with these ranks of a and +, and this weight of +.
fn show_r1(rt: &impl Print, case: &str, a: u16, plus: u16, weight: u16) -> io::Result<()> {
    println!(rt; "documents 000 and 004, R1, {case}")?;
    let mut sheet = SYSTEM_R1;
    sheet[7] = a;
    sheet[10] = weight;
    sheet[11] = plus;
    crate::print::show_sheet(rt, &sheet)
}

// 004, examples 3.1 and 3.2: the top-flattening of (a+b)+a, and the parts of one for f > + > g.
#[rattlefmt::skip]
const FLATTENINGS: [u16; 82] = [
    2, 5, 1, 3,                               // form, K, w0, N
    0, 0, 1, 0,                               // b
    0, 0, 1, 1,                               // a
    1, 0, 1, 2,                               // g
    2, 1, 1, 3,                               // +
    1, 0, 1, 4,                               // f
    3, 3, 1, 0, 1,  3, 1, 3, 1, 0,            // (a+b)+a -> a+(a+b)
    3, 3, 3, 3, 4, 1, 2, 0, 2, 256, 256, 257, // f(a)+g(b)+g(x)+x+y
    3, 3, 3, 3, 4, 0, 2, 1, 2, 256, 256, 257, // -> f(b)+g(a)+g(x)+x+y
    3, 3, 3, 3, 4, 0, 2, 1, 2, 256, 256, 257, // f(b)+g(a)+g(x)+x+y
    3, 3, 3, 3, 4, 0, 2, 0, 2, 256, 256, 257, // -> f(b)+g(b)+g(x)+x+y
];

// 001, section 5: c + d is above g(c) in every context.
#[rattlefmt::skip]
const SECTION_5: [u16; 60] = [
    2, 5, 1, 4,                           // form, K, w0, N
    0, 0, 1, 0,                           // c
    0, 0, 1, 1,                           // d
    1, 0, 1, 2,                           // g
    2, 1, 0, 3,                           // +
    1, 0, 1, 4,                           // h
    3, 0, 1,  2, 0,                       // c+d -> g(c)
    3, 3, 256, 0, 1,  3, 256, 2, 0,       // (x+c)+d -> x+g(c)
    3, 3, 4, 256, 0, 1,  3, 4, 256, 2, 0, // (h(x)+c)+d -> h(x)+g(c)
    3, 3, 2, 256, 0, 1,  3, 2, 256, 2, 0, // (g(x)+c)+d -> g(x)+g(c)
];

// 001, section 2.1: a proper superset is greater.
#[rattlefmt::skip]
const SECTION_2_1: [u16; 29] = [
    2, 3, 1, 1,                                   // form, K, w0, N
    0, 0, 2, 0,                                   // o
    2, 1, 1, 1,                                   // +
    1, 0, 1, 2,                                   // h
    1, 1, 2, 256, 2, 256, 0,  1, 2, 256, 1, 0, 0, // (h(x)+h(x))+o -> h(x)+(o+o)
];

pub fn run(rt: &impl Print) -> io::Result<()> {
    show(
        rt,
        "documents 000 and 004, a symbol over a variable",
        &SYMBOL_OVER_VARIABLE,
    )?;
    show_r1(rt, "f > a > +, + weighs 0", 1, 0, 0)?;
    show_r1(rt, "f > + > a, + weighs 0", 0, 1, 0)?;
    show_r1(rt, "f > a > +, + weighs 1", 1, 0, 1)?;
    show_r1(rt, "f > + > a, + weighs 1", 0, 1, 1)?;
    show(rt, "document 004, examples 3.1 and 3.2", &FLATTENINGS)?;
    show(rt, "document 001, section 5", &SECTION_5)?;
    show(rt, "document 001, section 2.1", &SECTION_2_1)
}
