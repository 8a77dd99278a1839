// 02's form 2: a book of form 1 is refused and converted, and a variable out of turn is refused.
use crate::print::{print_numbers, print_report};
use converter::convert;
use std::io;

// 01's sample in form 1, where two rules differ in their variables' numbers alone: sub(v,u)+z -> sub(v,u),
// sub(s,w)+z -> sub(s,w), neg(w) -> w, u+y -> s, z -> o.
#[rattlefmt::skip]
const OLD: [u8; 48] = [
    16, 96, 0, 16, 20, 0, 0, 64, 0, 0, 4, 4, 0, 0, 192, 148, 0, 4, 12, 128, 0, 65, 16, 0, 4, 20, 6,
    5, 140, 0, 32, 88, 192, 6, 5, 172, 128, 32, 90, 200, 9, 41, 0, 225, 74, 128, 64, 0,
];

// 01's sample in form 2 with the rule v+u -> u.
#[rattlefmt::skip]
const OUT_OF_TURN: [u16; 32] = [
    2, 6, 1, 1,         // form, K, w0, N
    0, 0, 1, 0,         // o
    0, 0, 1, 1,         // z
    0, 0, 3, 2,         // b
    2, 1, 1, 3,         // +
    1, 0, 1, 4,         // neg
    2, 0, 1, 5,         // sub
    3, 257, 256,  256,  // v+u -> u
];

// The book of that sheet.
#[rattlefmt::skip]
const OUT_OF_TURN_BOOK: [u8; 29] = [
    32, 96, 0, 16, 4, 0, 0, 64, 0, 0, 4, 4, 0, 0, 192, 148, 0, 4, 12, 128, 0, 65, 16, 0, 4, 20, 7,
    24, 64,
];

// Converts the book of form 1, then the converted one, and then the first one with a byte too little.
fn convert_old(rt: &impl Print) -> io::Result<()> {
    let mut book = [0u8; 48];
    print_numbers(rt, convert(&OLD, &mut book))?;
    print_report(rt, &book)?;
    let mut again = [0u8; 48];
    print_numbers(rt, convert(&book, &mut again))?;
    let mut short = [0u8; 47];
    print_numbers(rt, convert(&OLD, &mut short))
}

pub fn run(rt: &impl Print) -> io::Result<()> {
    println!(rt; "a book of form 1")?;
    print_report(rt, &OLD)?;
    println!(rt; "the book converted")?;
    convert_old(rt)?;
    println!(rt; "a variable out of turn")?;
    let mut book = [0u8; 29];
    print_numbers(rt, encoder::encode(&OUT_OF_TURN, &mut book))?;
    print_report(rt, &OUT_OF_TURN_BOOK)
}
