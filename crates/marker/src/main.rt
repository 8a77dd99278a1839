// Reads a rule file from standard input and prints its marks, or its refusal.
#![tactic(auto)]

use std::io;

// Room for a file, and for the report of any.
const BYTES: usize = 65536;

fn main(rt: HostRuntime) -> io::Result<()> {
    let mut book = [0u8; BYTES];
    // What a read that fails leaves unread is no part of the file.
    let (count, _) = intake::read_full(&mut rt.stdin(), &mut book);
    let mut text = [0u8; BYTES];
    let end = marking::report::report(&book[..count], &mut text);
    rt.write_all(&text[..end])
}
