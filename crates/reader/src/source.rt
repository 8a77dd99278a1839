// The source of a rule file.
use bits::Book;

// A packed file, or the words of a sheet.
#[derive(Clone, Copy)]
pub enum Source<'a> {
    Book(Book<'a>),
    Sheet(&'a [u16]),
}
