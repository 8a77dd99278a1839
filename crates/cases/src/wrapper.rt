// 02's wrapper: a book with a symbol of arity 1 that weighs 0, its page, and books in which that symbol is refused.
use crate::print::{close, print_numbers, print_page, print_report};
use std::io;

#[rattlefmt::skip]
const WRAPPER: [u16; 64] = [
    2, 4, 1, 10,                  // form, K, w0, N
    0, 0, 1, 0,                   // c
    2, 1, 1, 1,                   // +
    1, 0, 1, 2,                   // g
    1, 0, 0, 3,                   // f
    3, 256,  256,                 // f(x) -> x
    3, 3, 3, 256,  256,           // f(f(f(x))) -> x
    256,  3, 256,                 // x -> f(x)
    3, 0,  0,                     // f(c) -> c
    1, 3, 256, 257,  1, 256, 257, // f(x)+y -> x+y
    3, 2, 256,  2, 3, 256,        // f(g(x)) -> g(f(x))
    2, 3, 256,  2, 256,           // g(f(x)) -> g(x)
    3, 256,  3, 257,              // f(x) -> f(y)
    3, 256,  3, 3, 256,           // f(x) -> f(f(x))
    2, 256,  256,                 // g(x) -> x
];

// The same book in form 1.
#[rattlefmt::skip]
const OLD: [u8; 59] = [
    16, 64, 0, 16, 40, 0, 0, 64, 20, 0, 4, 4, 128, 0, 64, 136, 0, 0, 12, 7, 8, 0, 192, 96, 56, 66, 0,
    56, 0, 192, 0, 0, 8, 14, 17, 0, 194, 32, 48, 20, 0, 64, 56, 0, 128, 112, 1, 64, 7, 0, 28, 64, 112,
    1, 128, 224, 2, 132, 0,
];

// The symbol ranked below a constant.
#[rattlefmt::skip]
const LOW: [u16; 12] = [
    2, 2, 1, 0, // form, K, w0, N
    1, 0, 0, 0, // f
    0, 0, 1, 1, // c
];

// The book of that sheet.
const LOW_BOOK: [u8; 12] = [32, 32, 0, 16, 0, 128, 0, 0, 0, 0, 4, 4];

pub fn run(rt: &impl Print) -> io::Result<()> {
    println!(rt; "a weightless wrapper")?;
    let mut book = [0u8; 59];
    close(rt, &WRAPPER, &mut book)?;
    print_report(rt, &book)?;
    print_page(rt, &book)?;
    println!(rt; "the same in form 1")?;
    let mut converted = [0u8; 59];
    print_numbers(rt, converter::convert(&OLD, &mut converted))?;
    println!(rt; "a wrapper ranked below another symbol")?;
    let mut low = [0u8; 12];
    print_numbers(rt, encoder::encode(&LOW, &mut low))?;
    print_report(rt, &LOW_BOOK)
}
