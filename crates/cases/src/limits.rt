// 01's limits, each at the last input that is read and at the first that is refused.
ghost use Rattle.std.specs.Prelude.{◌+◌, ◌*◌, ◌≤◌, length, IfOk};

use crate::print::{close, print_numbers, print_report};
use marking::mark::mark;
use std::io;

// The words of the longest sheet, of 251 rules f(..f(c)) -> c with 114 times f, whose book has 32,768 bytes.
const MAX_WORDS: usize = 29128;

// A sheet where w0 is 2, of one constant, of weight 2, and no rule.
const WEIGHT_2: [u16; 8] = [2, 1, 2, 0, 0, 0, 2, 0];

// The same with a constant of weight 1.
const WEIGHT_1: [u16; 8] = [2, 1, 2, 0, 0, 0, 1, 0];

// Stores rules f(..f(c)) -> c, each with that many f, from word 12 of a sheet of zeros, which stand for f, and gives the
// index past them.
fn put_rules(sheet: &mut [u16], rules: usize, height: usize) -> usize
    requires { 12 + rules * (height + 2) ≤ length sheet.old }
    ensures { result ≤ length sheet.new }
{
    let mut at = 12;
    for i in 0..rules {
        at += height;
        sheet[at] = 1;
        sheet[at + 1] = 1;
        at += 2;
    }
    at
}

// Closes the sheet of that many rules f(..f(c)) -> c, each with that many f; w0 and the weights of f and c are 1. It is
// never inlined: its sheet would stay on the stack while the book is marked.
#[inline(never)]
fn close_towers(rt: &impl Print, rules: u16, height: usize, book: &mut [u8]) -> io::Result<usize>
    requires { 12 + rules * (height + 2) ≤ 29128 }
    ensures { IfOk result (λ n. n ≤ length book.new) }
{
    let mut sheet = [0u16; MAX_WORDS];
    // Form, K, w0, N.
    sheet[0] = 2;
    sheet[1] = 2;
    sheet[2] = 1;
    sheet[3] = rules;
    // Symbol 0, f: arity 1, weight 1, rank 0.
    sheet[4] = 1;
    sheet[6] = 1;
    // Symbol 1, c: arity 0, weight 1, rank 1.
    sheet[10] = 1;
    sheet[11] = 1;
    let end = put_rules(&mut sheet, rules as usize, height);
    close(rt, &sheet[..end], book)
}

fn bytes(rt: &impl Print) -> io::Result<()> {
    println!(rt; "32,768 bytes, and 32,769")?;
    let mut book = [0u8; 32769];
    let count = close_towers(rt, 251, 114, &mut book)?;
    let mut marks = [0u8; 251];
    print_numbers(rt, mark(&book[..count], &mut marks))?;
    print_numbers(rt, mark(&book, &mut marks))
}

fn nodes(rt: &impl Print) -> io::Result<()> {
    println!(rt; "128 nodes, and 129")?;
    let mut book = [0u8; 157];
    close_towers(rt, 1, 127, &mut book)?;
    print_report(rt, &book)?;
    close_towers(rt, 1, 128, &mut book)?;
    // Node 128 ends within byte 155, and becomes f in place of c.
    book[155] = 0;
    print_report(rt, &book)
}

fn weights(rt: &impl Print) -> io::Result<()> {
    println!(rt; "a constant of weight w0, and of w0 - 1")?;
    let mut book = [0u8; 9];
    close(rt, &WEIGHT_2, &mut book)?;
    print_report(rt, &book)?;
    close(rt, &WEIGHT_1, &mut book)?;
    // The weight ends within byte 7, and becomes 1 in place of 2.
    book[7] = 64;
    print_report(rt, &book)
}

fn marks(rt: &impl Print) -> io::Result<()> {
    println!(rt; "1,023 marks for 1,023 rules, and 1,022")?;
    let mut book = [0u8; 4096];
    let count = close_towers(rt, 1023, 1, &mut book)?;
    let mut marks = [0u8; 1023];
    print_numbers(rt, mark(&book[..count], &mut marks))?;
    let mut fewer = [0u8; 1022];
    print_numbers(rt, mark(&book[..count], &mut fewer))
}

pub fn run(rt: &impl Print) -> io::Result<()> {
    println!(rt; "no bytes")?;
    print_report(rt, b"")?;
    bytes(rt)?;
    nodes(rt)?;
    weights(rt)?;
    marks(rt)
}
