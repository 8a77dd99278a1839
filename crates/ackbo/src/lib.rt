// The operations for callers in C: each gives its code, 0 or that of the error, and stores the values of its reply.
#![tactic(auto)]

pub mod turn;

ghost use Rattle.std.specs.Prelude.{◌≡◌};
ghost use Rattle.std.proofs.lemmas.List.Edits.{sets};
ghost use Rattle.operations.specs.Coding.{decoded, encoded};
ghost use Rattle.operations.specs.Converting.{converted};
ghost use Rattle.operations.specs.Comparing.{compared};
ghost use Rattle.operations.specs.Picking.{picked};
ghost use Rattle.operations.specs.Variables.{oftener};
ghost use Rattle.operations.specs.Hashing.{fingerprinted};
ghost use Rattle.operations.specs.Enumerating.{counted, listed};
ghost use Rattle.operations.specs.Marking.{marked};
ghost use Rattle.operations.specs.Paging.{paged};
ghost use Rattle.operations.specs.Boundary.{code_of, values_of};
ghost use Rattle.operations.specs.Boundary.{number_values, comparison_values, side_values, optional_values};
ghost use Rattle.operations.specs.Boundary.{summary_values};

use boundary::{Values, put};

#[unsafe(no_mangle)]
pub extern "C" fn ackbo_decode(book: &[u8], words: &mut [u16], reply: &mut Values) -> u8
    ensures value { result ≡ code_of (decoded book.now words.old).reply }
    ensures reply_after { reply.new
        ≡ sets reply.old 0 (values_of number_values (decoded book.now words.old).reply) }
    ensures words_after { words.new ≡ (decoded book.now words.old).output }
{
    put(reply, decoder::decode(book, words))
}

#[unsafe(no_mangle)]
pub extern "C" fn ackbo_encode(words: &[u16], book: &mut [u8], reply: &mut Values) -> u8
    ensures value { result ≡ code_of (encoded words.now book.old).reply }
    ensures reply_after { reply.new
        ≡ sets reply.old 0 (values_of number_values (encoded words.now book.old).reply) }
    ensures book_after { book.new ≡ (encoded words.now book.old).output }
{
    put(reply, encoder::encode(words, book))
}

#[unsafe(no_mangle)]
pub extern "C" fn ackbo_convert(book: &[u8], out: &mut [u8], reply: &mut Values) -> u8
    ensures value { result ≡ code_of (converted book.now out.old).reply }
    ensures reply_after { reply.new
        ≡ sets reply.old 0 (values_of number_values (converted book.now out.old).reply) }
    ensures out_after { out.new ≡ (converted book.now out.old).output }
{
    put(reply, converter::convert(book, out))
}

#[unsafe(no_mangle)]
pub extern "C" fn ackbo_compare(book: &[u8], left: &[u16], right: &[u16], reply: &mut Values) -> u8
    ensures value { result ≡ code_of (compared book.now left.now right.now) }
    ensures reply_after { reply.new
        ≡ sets reply.old 0
        (values_of comparison_values (compared book.now left.now right.now)) }
{
    put(reply, comparing::compare(book, left, right))
}

#[unsafe(no_mangle)]
pub extern "C" fn ackbo_pick(book: &[u8], left: &[u16], right: &[u16], reply: &mut Values) -> u8
    ensures value { result ≡ code_of (picked book.now left.now right.now) }
    ensures reply_after { reply.new
        ≡ sets reply.old 0
        (values_of side_values (picked book.now left.now right.now)) }
{
    put(reply, picking::greater_side(book, left, right))
}

#[unsafe(no_mangle)]
pub extern "C" fn ackbo_oftener(book: &[u8], left: &[u16], right: &[u16], reply: &mut Values) -> u8
    ensures value { result ≡ code_of (oftener book.now left.now right.now) }
    ensures reply_after { reply.new
        ≡ sets reply.old 0
        (values_of number_values (oftener book.now left.now right.now)) }
{
    put(reply, comparing::oftener(book, left, right))
}

#[unsafe(no_mangle)]
pub extern "C" fn ackbo_fingerprint(book: &[u8], term: &[u16], reply: &mut Values) -> u8
    ensures value { result ≡ code_of (fingerprinted book.now term.now) }
    ensures reply_after { reply.new
        ≡ sets reply.old 0 (values_of number_values (fingerprinted book.now term.now)) }
{
    put(reply, hashing::fingerprint(book, term))
}

#[unsafe(no_mangle)]
pub extern "C" fn ackbo_count(book: &[u8], n: usize, reply: &mut Values) -> u8
    ensures value { result ≡ code_of (counted book.now n) }
    ensures reply_after { reply.new ≡ sets reply.old 0 (values_of optional_values (counted book.now n)) }
{
    put(reply, enumerating::count(book, n))
}

#[unsafe(no_mangle)]
pub extern "C" fn ackbo_list(book: &[u8], words: &mut [u16], n: usize, reply: &mut Values) -> u8
    ensures value { result ≡ code_of (listed book.now words.old n).reply }
    ensures reply_after { reply.new
        ≡ sets reply.old 0 (values_of number_values (listed book.now words.old n).reply) }
    ensures words_after { words.new ≡ (listed book.now words.old n).output }
{
    put(reply, enumerating::list(book, words, n))
}

#[unsafe(no_mangle)]
pub extern "C" fn ackbo_mark(book: &[u8], marks: &mut [u8], reply: &mut Values) -> u8
    ensures value { result ≡ code_of (marked book.now marks.old).reply }
    ensures reply_after { reply.new
        ≡ sets reply.old 0 (values_of summary_values (marked book.now marks.old).reply) }
    ensures marks_after { marks.new ≡ (marked book.now marks.old).output }
{
    put(reply, marking::mark::mark(book, marks))
}

#[unsafe(no_mangle)]
pub extern "C" fn ackbo_page(book: &[u8], page: &mut [u8], reply: &mut Values) -> u8
    ensures value { result ≡ code_of (paged book.now page.old).reply }
    ensures reply_after { reply.new
        ≡ sets reply.old 0 (values_of number_values (paged book.now page.old).reply) }
    ensures page_after { page.new ≡ (paged book.now page.old).output }
{
    put(reply, paging::page(book, page))
}
