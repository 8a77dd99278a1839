// Reads a rule file from standard input and prints its page, or its refusal.
#![tactic(auto)]

ghost use Rattle.std.specs.Prelude.{◌≡◌, length};

use std::io;

// Room for a file.
const BYTES: usize = 65536;

fn blank_page() -> [u8; paging::PAGE_BYTES]
    ensures { 66495 ≡ length result }
{
    [0; paging::PAGE_BYTES]
}

fn main(rt: HostRuntime) -> io::Result<()> {
    let mut book = [0u8; BYTES];
    // What a read that fails leaves unread is no part of the file.
    let (count, _) = intake::read_full(&mut rt.stdin(), &mut book);
    let mut page = blank_page();
    let end = paging::board(&book[..count], &mut page);
    rt.write_all(&page[..end])
}
