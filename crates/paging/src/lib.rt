// A page for the notice board: a line for each rule of a rule file.
#![tactic(auto)]

ghost use Rattle.std.specs.Prelude.{◌≡◌, ◌^◌, ◌≤◌, ◌<◌, length};
ghost use Rattle.std.proofs.lemmas.List.Edits.{sets};
ghost use Rattle.operations.specs.Page.{words_for, page_line, page as page_of, Fits, AllFit};
ghost use Rattle.operations.specs.Paging.{paged, board as boardText};
ghost use Rattle.operations.specs.Enums.{reply_of};
ghost use Rattle.text.specs.Put.{Pushed};
ghost use Rattle.paging.specs.Entries.{entries};

use format::{ErrorCode, MAX_RULES};
use marking::walk::{Marked, mark_file};
use operations::Error;
use text::Text;

const NUMBER_WIDTH: usize = 4;

const WORDS_WIDTH: usize = 40;

const MARGIN_WIDTH: usize = 12;

// The number of the first rule.
const FIRST_RULE: usize = 0;

// 64 characters and byte 10.
const LINE_BYTES: usize = 65;

// Room for the page of any file.
pub const PAGE_BYTES: usize = 66495;

// The words for a mark, by its number: the walk over a file stores marks as the bytes that callers in C have.
fn words(mark: u8) -> &'static [u8]
    requires { (1 ≤ mark) × (mark ≤ 11) }
    ensures value { result.now ≡ words_for mark }
    ensures short { length result.now ≤ 40 }
{
    match mark {
        1 => b"falls by weight",
        2 => b"falls by rank",
        3 => b"falls by arguments",
        4 => b"falls by high terms",
        5 => b"falls by count",
        6 => b"falls by low terms",
        7 => b"variable added",
        8 => b"left lighter",
        9 => b"sides equal",
        10 => b"no case",
        _ => b"falls by wrapping",
    }
}

// The line of a rule.
fn push_line(text: &mut Text, number: usize, mark: u8, margin: i64)
    requires { (text.old.end < 2 ^ 20) × (number < 10 ^ 4) × Fits (record { mark = mark; margin = margin }) }
    ensures { Pushed text.old (page_line number (record { mark = mark; margin = margin })) text.new }
{
    text.push_right_set(NUMBER_WIDTH, number as i64);
    text.push_byte(b' ');
    text.push_left_set(WORDS_WIDTH, words(mark));
    text.push_byte(b' ');
    text.push_right_set(MARGIN_WIDTH, margin);
    text.push_bytes(b"      \n");
}

// The lines of all rules, by their marks and margins.
fn push_lines(text: &mut Text, marks: &[u8], margins: &[i64])
    requires all_fit { AllFit (entries marks.now margins.now) }
    requires marks_len_bound { (length marks.now < 1024) × (length margins.now ≡ length marks.now) }
    requires end_bound { text.old.end < 2 ^ 19 }
    ensures { Pushed text.old (page_of (entries marks.now margins.now)) text.new }
{
    for (i, &mark) in marks.iter().enumerate() {
        push_line(text, FIRST_RULE + i, mark, margins[i]);
    }
}

// Puts the marks and margins of a packed file on the front of a page. They are kept elsewhere until no fault is left to
// find.
pub fn page(book: &[u8], page: &mut [u8]) -> Result<usize, Error>
    ensures result_value { reply_of result ≡ (paged book.now page.old).reply }
    ensures page_after { page.new ≡ (paged book.now page.old).output }
{
    let mut marks = [0u8; MAX_RULES];
    let mut margins = [0i64; MAX_RULES];
    match mark_file(book, &mut marks, &mut margins) {
        Err(fault) => Err(fault.in_input(0)),
        Ok(Marked { rules, .. }) => {
            let count = LINE_BYTES * rules;
            if page.len() < count {
                let code = ErrorCode::PageTooShort;
                return Err(Error {
                    code,
                    input: 1,
                    offset: 0,
                });
            }
            let mut text = Text::new(page);
            push_lines(&mut text, &marks[..rules], &margins[..rules]);
            Ok(count)
        }
    }
}

// Writes what `board` prints for a packed file at the front of a buffer, and gives its length.
pub fn board(book: &[u8], out: &mut [u8; PAGE_BYTES]) -> usize
    ensures value { (result ≡ length (boardText book.now)) × (result ≤ 66495) }
    ensures out_after { out.new ≡ sets out.old 0 (boardText book.now) }
{
    match page(book, out) {
        Ok(count) => count,
        Err(error) => {
            lines::put_refusal(
                out,
                u64::from(answers::number(error.code)),
                error.offset as u64,
            )
        }
    }
}
