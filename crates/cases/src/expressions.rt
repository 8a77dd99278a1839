// 02's small expressions: their numbers, a list of them, and what is refused.
use crate::print::{close, print_numbers};
use enumerating::{count, list};
use std::io;

// 01's sample without rules.
#[rattlefmt::skip]
const SAMPLE: [u16; 28] = [
    2, 6, 1, 0, // form, K, w0, N
    0, 0, 1, 0, // o
    0, 0, 1, 1, // z
    0, 0, 3, 2, // b
    2, 1, 1, 3, // +
    1, 0, 1, 4, // neg
    2, 0, 1, 5, // sub
];

// A symbol of each arity but a constant.
#[rattlefmt::skip]
const NO_CONSTANT: [u16; 16] = [
    2, 3, 1, 0, // form, K, w0, N
    1, 0, 1, 0, // f
    2, 1, 1, 1, // +
    7, 0, 0, 2, // g
];

// 17 constants, 4 symbols of arity 1, 3 of arity 2 and 11 of arity 3: 65,535 terms of 4 nodes.
#[rattlefmt::skip]
const MOST: [u16; 144] = [
    2, 35, 1, 0, // form, K, w0, N
    0, 0, 1, 0,  0, 0, 1, 1,  0, 0, 1, 2,  0, 0, 1, 3,  0, 0, 1, 4,  0, 0, 1, 5,
    0, 0, 1, 6,  0, 0, 1, 7,  0, 0, 1, 8,  0, 0, 1, 9,  0, 0, 1, 10,  0, 0, 1, 11,
    0, 0, 1, 12,  0, 0, 1, 13,  0, 0, 1, 14,  0, 0, 1, 15,  0, 0, 1, 16,
    1, 0, 1, 17,  1, 0, 1, 18,  1, 0, 1, 19,  1, 0, 1, 20,
    2, 0, 1, 21,  2, 0, 1, 22,  2, 0, 1, 23,
    3, 0, 1, 24,  3, 0, 1, 25,  3, 0, 1, 26,  3, 0, 1, 27,  3, 0, 1, 28,  3, 0, 1, 29,
    3, 0, 1, 30,  3, 0, 1, 31,  3, 0, 1, 32,  3, 0, 1, 33,  3, 0, 1, 34,
];

// 2 constants and 8 symbols of arity 1: 65,536 terms of 6 nodes.
#[rattlefmt::skip]
const MORE: [u16; 44] = [
    2, 10, 1, 0, // form, K, w0, N
    0, 0, 1, 0,  0, 0, 1, 1,
    1, 0, 1, 2,  1, 0, 1, 3,  1, 0, 1, 4,  1, 0, 1, 5,
    1, 0, 1, 6,  1, 0, 1, 7,  1, 0, 1, 8,  1, 0, 1, 9,
];

// Counts the terms of 0 to 8 nodes.
fn print_counts(rt: &impl Print, book: &[u8]) -> io::Result<()> {
    for n in 0..=8 {
        print_numbers(rt, count(book, n))?;
    }
    Ok(())
}

// Prints 21 terms of 3 nodes, and the words after them.
fn print_terms(rt: &impl Print, words: [u16; 66]) -> io::Result<()> {
    for i in 0..22 {
        print_numbers(
            rt,
            [words[3 * i], words[3 * i + 1], words[3 * i + 2]].map(u64::from),
        )?;
    }
    Ok(())
}

fn sample(rt: &impl Print) -> io::Result<()> {
    let mut book = [0u8; 26];
    close(rt, &SAMPLE, &mut book)?;
    println!(rt; "sample, numbers of small expressions")?;
    print_counts(rt, &book)?;
    println!(rt; "sample, expressions of 3 nodes")?;
    let mut words = [77u16; 66];
    print_numbers(rt, list(&book, &mut words, 3))?;
    print_terms(rt, words)?;
    println!(rt; "sample, room for a word less, and also a size that is none")?;
    let mut short = [0u16; 62];
    print_numbers(rt, list(&book, &mut short, 3))?;
    print_numbers(rt, list(&book, &mut short, 0))?;
    print_numbers(rt, list(&book, &mut short, 8))
}

fn no_constant(rt: &impl Print) -> io::Result<()> {
    println!(rt; "no constant")?;
    let mut book = [0u8; 16];
    close(rt, &NO_CONSTANT, &mut book)?;
    print_counts(rt, &book)?;
    let mut words = [0u16; 1];
    print_numbers(rt, list(&book, &mut words, 7))
}

fn most_terms(rt: &impl Print) -> io::Result<()> {
    println!(rt; "65,535 terms, and 65,536")?;
    let mut book = [0u8; 128];
    let end = close(rt, &MOST, &mut book)?;
    print_numbers(rt, count(&book[..end], 4))?;
    let count_of_bytes = close(rt, &MORE, &mut book)?;
    print_numbers(rt, count(&book[..count_of_bytes], 6))?;
    let mut words = [0u16; 100];
    print_numbers(rt, list(&book[..count_of_bytes], &mut words, 6))
}

pub fn run(rt: &impl Print) -> io::Result<()> {
    sample(rt)?;
    no_constant(rt)?;
    most_terms(rt)
}
