// 01's sample, its traps and its listing.
// A sheet has a line for the header, each symbol (arity, AC mark, weight, rank) and each rule (left side, right side).
use crate::print::{print_comparison, print_numbers, print_pick, print_report, show};
use comparing::oftener;
use hashing::fingerprint;
use std::io;

// The sample; where 01 does not group a sum, each grouping is a rule.
#[rattlefmt::skip]
const SAMPLE: [u16; 149] = [
    2, 6, 1, 20,                         // form, K, w0, N
    0, 0, 1, 0,                          // o
    0, 0, 1, 1,                          // z
    0, 0, 3, 2,                          // b
    2, 1, 1, 3,                          // +
    1, 0, 1, 4,                          // neg
    2, 0, 1, 5,                          // sub
    3, 256, 1,  256,                     // u+z -> u
    1,  0,                               // z -> o
    5, 256, 1,  5, 256, 0,               // sub(u,z) -> sub(u,o)
    3, 4, 1, 256,  3, 4, 0, 256,         // neg(z)+u -> neg(o)+u
    3, 3, 1, 1, 1,  3, 1, 2,             // (z+z)+z -> z+b
    3, 1, 3, 1, 1,  3, 1, 2,             // z+(z+z) -> z+b
    3, 1, 256,  3, 0, 256,               // z+u -> o+u
    3, 256, 1,  3, 256, 256,             // u+z -> u+u
    0,  4, 0,                            // o -> neg(o)
    3, 4, 0, 3, 1, 0,  3, 3, 0, 4, 0, 1, // neg(o)+(z+o) -> (o+neg(o))+z
    3, 4, 256, 0,  3, 256, 4, 0,         // neg(u)+o -> u+neg(o)
    256,  0,                             // u -> o
    3, 3, 1, 0, 0,  3, 3, 1, 1, 0,       // (z+o)+o -> (z+z)+o
    3, 3, 1, 0, 0,  3, 1, 3, 1, 0,       // (z+o)+o -> z+(z+o)
    3, 1, 3, 0, 0,  3, 3, 1, 1, 0,       // z+(o+o) -> (z+z)+o
    3, 1, 3, 0, 0,  3, 1, 3, 1, 0,       // z+(o+o) -> z+(z+o)
    2,  256,                             // b -> u
    0,  256,                             // o -> u
    256,  256,                           // u -> u
    256,  257,                           // u -> v
];

// Traps that show in the sample.
#[rattlefmt::skip]
const SAMPLE_TRAPS: [u16; 135] = [
    2, 6, 1, 13,                                           // form, K, w0, N
    0, 0, 1, 0,                                            // o
    0, 0, 1, 1,                                            // z
    0, 0, 3, 2,                                            // b
    2, 1, 1, 3,                                            // +
    1, 0, 1, 4,                                            // neg
    2, 0, 1, 5,                                            // sub
    // AC-equivalent members are cancelled.
    3, 4, 3, 1, 0, 1,  3, 4, 3, 0, 1, 0,                   // neg(z+o)+z -> neg(o+z)+o
    3, 4, 3, 4, 3, 1, 0, 2, 1,  3, 4, 3, 2, 4, 3, 0, 1, 0, // neg(neg(z+o)+b)+z -> neg(b+neg(o+z))+o
    5, 3, 1, 0, 1,  5, 3, 0, 1, 0,                         // sub(z+o,z) -> sub(o+z,o)
    3, 4, 3, 1, 0, 3, 1, 1,  3, 4, 3, 0, 1, 2,             // neg(z+o)+(z+z) -> neg(o+z)+b
    // Variables are tested before weight.
    2,  256,                                               // b -> u
    4, 4, 0,  256,                                         // neg(neg(o)) -> u
    256,  4, 257,                                          // u -> neg(v)
    // Equal weights of one root are settled by arguments.
    5, 4, 0, 0,  5, 0, 4, 0,                               // sub(neg(o),o) -> sub(o,neg(o))
    5, 0, 4, 0,  5, 4, 0, 0,                               // sub(o,neg(o)) -> sub(neg(o),o)
    4, 4, 1,  4, 4, 0,                                     // neg(neg(z)) -> neg(neg(o))
    5, 5, 1, 0, 256,  5, 5, 0, 1, 256,                     // sub(sub(z,o),u) -> sub(sub(o,z),u)
    5, 256, 1,  5, 1, 256,                                 // sub(u,z) -> sub(z,u)
    5, 1, 256,  5, 256, 1,                                 // sub(z,u) -> sub(u,z)
];

// Traps of top-flattenings: constants o < z < c < d, then g < + < * < h.
#[rattlefmt::skip]
const TRAPS: [u16; 287] = [
    2, 8, 1, 23,                                          // form, K, w0, N
    0, 0, 1, 0,                                           // o
    0, 0, 1, 1,                                           // z
    0, 0, 2, 2,                                           // c
    0, 0, 1, 3,                                           // d
    1, 0, 2, 4,                                           // g
    2, 1, 1, 5,                                           // +
    2, 1, 1, 6,                                           // *
    1, 0, 1, 7,                                           // h
    // Surplus variables of the right join its high part.
    5, 7, 1, 4, 256,  5, 5, 7, 0, 256, 0,                 // h(z)+g(u) -> (h(o)+u)+o
    5, 7, 1, 4, 0,  5, 5, 7, 0, 1, 0,                     // h(z)+g(o) -> (h(o)+z)+o
    5, 5, 7, 1, 256, 2,  5, 5, 7, 0, 256, 2,              // (h(z)+u)+c -> (h(o)+u)+c
    5, 7, 7, 256, 2,  5, 5, 7, 0, 256, 0,                 // h(h(u))+c -> (h(o)+u)+o
    5, 7, 5, 2, 256, 0,  5, 5, 7, 2, 256, 0,              // h(c+u)+o -> (h(c)+u)+o
    // Surplus variables are counted by occurrence.
    5, 5, 256, 7, 1, 4, 256,  5, 5, 5, 256, 256, 7, 0, 0, // (u+h(z))+g(u) -> ((u+u)+h(o))+o
    5, 5, 256, 256, 2,  5, 256, 256,                      // (u+u)+c -> u+u
    // Flattening stops at another AC symbol.
    5, 6, 3, 1, 0,  5, 6, 3, 0, 1,                        // (d*z)+o -> (d*o)+z
    5, 6, 3, 0, 1,  5, 6, 3, 1, 0,                        // (d*o)+z -> (d*z)+o
    6, 5, 3, 1, 0,  6, 5, 3, 0, 1,                        // (d+z)*o -> (d+o)*z
    5, 5, 3, 6, 1, 0, 0,  5, 5, 0, 6, 0, 1, 3,            // (d+(z*o))+o -> (o+(o*z))+d
    // One member cancels one member.
    5, 7, 1, 2,  5, 7, 1, 7, 1,                           // h(z)+c -> h(z)+h(z)
    5, 5, 1, 1, 0,  5, 5, 1, 0, 0,                        // (z+z)+o -> (z+o)+o
    5, 5, 1, 0, 0,  5, 5, 1, 1, 0,                        // (z+o)+o -> (z+z)+o
    // One left-over member covers several.
    5, 7, 7, 3, 0,  5, 7, 1, 7, 0,                        // h(h(d))+o -> h(z)+h(o)
    5, 5, 3, 2, 5, 0, 0,  5, 5, 1, 1, 5, 2, 0,            // (d+c)+(o+o) -> (z+z)+(c+o)
    // A cancelled member covers nothing.
    5, 5, 7, 1, 7, 0, 0,  5, 5, 7, 1, 7, 0, 1,            // (h(z)+h(o))+o -> (h(z)+h(o))+z
    5, 5, 7, 1, 2, 0,  5, 5, 7, 1, 7, 0, 0,               // (h(z)+c)+o -> (h(z)+h(o))+o
    // All members are counted, variables too.
    5, 5, 256, 257, 0,  5, 256, 4, 0,                     // (u+v)+o -> u+g(o)
    5, 5, 7, 1, 256, 0,  5, 7, 1, 4, 0,                   // (h(z)+u)+o -> h(z)+g(o)
    5, 5, 0, 0, 1,  5, 4, 0, 1,                           // (o+o)+z -> g(o)+z
    5, 4, 0, 1,  5, 5, 0, 0, 1,                           // g(o)+z -> (o+o)+z
    5, 4, 0, 256,  5, 5, 0, 0, 256,                       // g(o)+u -> (o+o)+u
];

// Compares terms under the book of the sample.
fn compare_terms(rt: &impl Print, book: &[u8]) -> io::Result<()> {
    print_comparison(rt, book, &[3, 256, 1], &[256])?; // u+z, u
    print_comparison(rt, book, &[256], &[3, 256, 1])?; // u, u+z
    print_comparison(rt, book, &[0], &[4, 0])?; // o, neg(o)
    print_comparison(rt, book, &[3, 0, 256], &[3, 1, 256])?; // o+u, z+u
    print_comparison(rt, book, &[3, 4, 0, 3, 1, 0], &[3, 3, 0, 4, 0, 1])?; // neg(o)+(z+o), (o+neg(o))+z
    print_comparison(rt, book, &[3, 4, 256, 0], &[3, 256, 4, 0])?; // neg(u)+o, u+neg(o)
    print_comparison(rt, book, &[256], &[0])?; // u, o
    print_comparison(rt, book, &[0], &[256])?; // o, u
    print_comparison(rt, book, &[2], &[256]) // b, u
}

// Picks terms under the book of the sample, with words after them.
fn pick_terms(rt: &impl Print, book: &[u8]) -> io::Result<()> {
    print_pick(rt, book, &[3, 256, 1], &[256, 272])?; // u+z, u
    print_pick(rt, book, &[256, 3], &[3, 256, 1, 0])?; // u, u+z
    print_pick(rt, book, &[5, 256, 0], &[5, 256, 1])?; // sub(u,o), sub(u,z)
    print_pick(rt, book, &[3, 1, 0], &[3, 0, 1, 9])?; // z+o, o+z
    print_pick(rt, book, &[3, 4, 256, 0], &[3, 256, 4, 0])?; // neg(u)+o, u+neg(o)
    print_pick(rt, book, &[0], &[3, 0]) // o, a term cut short
}

// Fingerprints under the book of the sample.
fn hash_terms(rt: &impl Print, book: &[u8]) -> io::Result<()> {
    print_numbers(rt, fingerprint(book, &[3, 0, 1]))?; // o+z
    print_numbers(rt, fingerprint(book, &[5, 1, 0]))?; // sub(z,o)
    print_numbers(rt, fingerprint(book, &[3, 3, 0, 1, 3, 0, 256]))?; // (o+z)+(o+u)
    print_numbers(rt, fingerprint(book, &[5, 5, 5, 3, 1, 0, 0, 0, 0]))?; // sub(sub(sub(z+o,o),o),o)
    print_numbers(rt, fingerprint(book, &[0, 0])) // o, and a word after it
}

// The variable test under the book of the sample.
fn test_terms(rt: &impl Print, book: &[u8]) -> io::Result<()> {
    print_numbers(rt, oftener(book, &[3, 256, 1], &[256]))?; // u+z, u
    print_numbers(rt, oftener(book, &[3, 256, 1], &[3, 256, 256]))?; // u+z, u+u
    print_numbers(rt, oftener(book, &[256], &[3, 257, 271]))?; // u, v+ variable 15
    print_numbers(rt, oftener(book, &[0], &[271]))?; // o, variable 15
    print_numbers(rt, oftener(book, &[0], &[1, 1])) // o, z and a word after it
}

fn terms(rt: &impl Print) -> io::Result<()> {
    let mut book = [0u8; 256];
    let count = crate::print::close(rt, &SAMPLE, &mut book)?;
    println!(rt; "sample, comparisons")?;
    compare_terms(rt, &book[..count])?;
    println!(rt; "sample, picks")?;
    pick_terms(rt, &book[..count])?;
    println!(rt; "sample, fingerprints")?;
    hash_terms(rt, &book[..count])?;
    println!(rt; "sample, variable tests")?;
    test_terms(rt, &book[..count])?;
    println!(rt; "sample, page")?;
    crate::print::print_page(rt, &book[..count])
}

pub fn run(rt: &impl Print) -> io::Result<()> {
    show(rt, "sample", &SAMPLE)?;
    show(rt, "sample, traps", &SAMPLE_TRAPS)?;
    show(rt, "traps", &TRAPS)?;
    terms(rt)?;
    println!(rt; "listing")?;
    print_report(
        rt,
        b"\x20\x20\x00\x10\x08\x00\x00\x40\x40\x00\x04\x00\x00\x01\x00\x80\x00",
    )
}
