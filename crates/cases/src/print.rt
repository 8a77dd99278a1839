// Printing what the operations give back.
ghost use Rattle.std.specs.Prelude.{◌≤◌, length, IfOk};

use operations::{Error, GreaterSide, Summary};
use std::io;

// What is printed as a line of three numbers.
pub trait Numbers {
    fn numbers(self) -> [u64; 3];
}

impl Numbers for [u64; 3] {
    fn numbers(self) -> [u64; 3] {
        self
    }
}

impl Numbers for usize {
    fn numbers(self) -> [u64; 3] {
        [self as u64, 0, 0]
    }
}

// 1 and a number, or 2 for none.
impl Numbers for Option<usize> {
    fn numbers(self) -> [u64; 3] {
        match self {
            Some(number) => [1, number as u64, 0],
            None => [2, 0, 0],
        }
    }
}

impl Numbers for Summary {
    fn numbers(self) -> [u64; 3] {
        [self.rules as u64, self.decreasing as u64, self.score as u64]
    }
}

// The code, the input at fault and the offset in it.
impl Numbers for Error {
    fn numbers(self) -> [u64; 3] {
        [
            u64::from(answers::number(self.code)),
            u64::from(self.input),
            self.offset as u64,
        ]
    }
}

impl<T: Numbers> Numbers for Result<T, Error> {
    fn numbers(self) -> [u64; 3] {
        match self {
            Ok(value) => value.numbers(),
            Err(error) => error.numbers(),
        }
    }
}

// Prints a line of three numbers.
pub fn print_numbers<T: Numbers>(rt: &impl Print, reply: T) -> io::Result<()> {
    let [a, b, c] = reply.numbers();
    println!(rt; "{a} {b} {c}")
}

// Writes the packed form of a sheet to the front of a book, and gives its length; or prints the error, and gives 0.
pub fn close(rt: &impl Print, sheet: &[u16], book: &mut [u8]) -> io::Result<usize>
    ensures { IfOk result (λ n. n ≤ length book.new) }
{
    match encoder::encode(sheet, book) {
        Ok(count) => Ok(count),
        Err(error) => {
            print_numbers(rt, error)?;
            Ok(0)
        }
    }
}

// Prints what `marker` prints for a book.
pub fn print_report(rt: &impl Print, book: &[u8]) -> io::Result<()> {
    let mut text = [0u8; marking::report::TEXT_BYTES];
    let end = marking::report::report(book, &mut text);
    rt.write_all(&text[..end])
}

// Prints what `board` prints for a book.
pub fn print_page(rt: &impl Print, book: &[u8]) -> io::Result<()> {
    let mut page = [0u8; paging::PAGE_BYTES];
    let end = paging::board(book, &mut page);
    rt.write_all(&page[..end])
}

// Prints what `marker` prints for the book of a sheet. It is never inlined: one book at a time is on the stack.
#[inline(never)]
pub fn show_sheet(rt: &impl Print, sheet: &[u16]) -> io::Result<()> {
    let mut book = [0u8; 32768];
    let count = close(rt, sheet, &mut book)?;
    print_report(rt, &book[..count])
}

// The same under a title.
pub fn show(rt: &impl Print, title: &str, sheet: &[u16]) -> io::Result<()> {
    println!(rt; "{title}")?;
    show_sheet(rt, sheet)
}

// Prints the number of the relation of two terms under a book, 1 greater, 2 less, 3 AC-equivalent, 4 unrelated, and the
// margin; or the error.
pub fn print_comparison(
    rt: &impl Print,
    book: &[u8],
    left: &[u16],
    right: &[u16],
) -> io::Result<()> {
    match comparing::compare(book, left, right) {
        Ok(comparison) => println!(rt; "{} {}", comparison.relation as u8, comparison.margin),
        Err(error) => print_numbers(rt, error),
    }
}

// Prints the number of the greater of two terms under a book, the count of its words, and the length of the part that
// is handed back; or the error.
pub fn print_pick<'a>(
    rt: &impl Print,
    book: &[u8],
    left: &'a [u16],
    right: &'a [u16],
) -> io::Result<()> {
    let part = picking::greater_part(book, left, right).len() as u64;
    match picking::greater_side(book, left, right) {
        Ok(GreaterSide::Left { words }) => print_numbers(rt, [1, words as u64, part]),
        Ok(GreaterSide::Right { words }) => print_numbers(rt, [2, words as u64, part]),
        Ok(GreaterSide::Equivalent) => print_numbers(rt, [3, 0, part]),
        Ok(GreaterSide::Unrelated) => print_numbers(rt, [4, 0, part]),
        Err(error) => print_numbers(rt, error),
    }
}
