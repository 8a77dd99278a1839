// Picking the greater of two terms under a rule file.
#![tactic(auto)]

ghost use Rattle.std.specs.Prelude.{◌≡◌};
ghost use Rattle.operations.specs.Picking.{side_of, picked, of_greater, greater_part};
ghost use Rattle.operations.specs.Enums.{reply_of};

use comparing::Related;
use operations::{Error, GreaterSide, Relation};
use words::Extent;

// The side that the relation of two terms makes the greater one.
fn side_of(related: Related) -> GreaterSide
    ensures { result ≡ side_of related.found.relation related.left related.right }
{
    match related.found.relation {
        Relation::Greater => GreaterSide::Left {
            words: related.left,
        },
        Relation::Less => GreaterSide::Right {
            words: related.right,
        },
        Relation::Equivalent => GreaterSide::Equivalent,
        Relation::Unrelated => GreaterSide::Unrelated,
    }
}

// Says which of the terms at the fronts of two slices is the greater one under a packed rule file.
pub fn greater_side(book: &[u8], left: &[u16], right: &[u16]) -> Result<GreaterSide, Error>
    ensures { reply_of result ≡ picked book.now left.now right.now }
{
    Ok(side_of(comparing::relate(book, left, right, Extent::Front)?))
}

// The front part of whichever slice has the greater term, or the empty one.
pub fn greater_part<'a>(book: &[u8], left: &'a [u16], right: &'a [u16]) -> &'a [u16]
    ensures result_value { result.now ≡ greater_part book.now left.now right.now }
    ensures ref_ptr_value { result.ref_ptr
        ≡ of_greater (picked book.now left.now right.now) (λ _. left.entry.ref_ptr)
        (λ _. right.entry.ref_ptr) left.entry.ref_ptr }
{
    match greater_side(book, left, right) {
        Ok(GreaterSide::Left { words }) => &left[..words],
        Ok(GreaterSide::Right { words }) => &right[..words],
        Ok(GreaterSide::Equivalent) => &left[..0],
        Ok(GreaterSide::Unrelated) => &left[..0],
        Err(_) => &left[..0],
    }
}
