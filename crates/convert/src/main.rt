// Reads a rule file of form 1 from standard input and prints it in form 2, or its refusal as `marker` does.
#![tactic(auto)]

use lines::put_refusal;
use std::io;

// Room for a file.
const BYTES: usize = 65536;

fn main(rt: HostRuntime) -> io::Result<()> {
    let mut book = [0u8; BYTES];
    // What a read that fails leaves unread is no part of the file.
    let (count, _) = intake::read_full(&mut rt.stdin(), &mut book);
    let mut converted = [0u8; BYTES];
    match converter::convert(&book[..count], &mut converted) {
        Ok(bytes) => rt.write_all(&converted[..bytes]),
        Err(error) => {
            let mut line = [0u8; 28];
            let code = u64::from(answers::number(error.code));
            let end = put_refusal(&mut line, code, error.offset as u64);
            rt.write_all(&line[..end])
        }
    }
}
