// What crosses to C: the three values of a reply, and its code, 0 or that of the error.
#![tactic(auto)]

mod turn;

ghost use Rattle.std.specs.Prelude.{◌≡◌, List, [], ◌∷◌, ℕ, ℤ, pos};
ghost use Rattle.std.proofs.lemmas.List.Edits.{sets};
ghost use Rattle.operations.specs.Enums.{reply_of};
ghost use Rattle.operations.specs.Boundary.{code_of, values_of};
ghost use Rattle.operations.specs.Boundary.{number_values, comparison_values, side_values, optional_values};
ghost use Rattle.operations.specs.Boundary.{summary_values};
ghost use Rattle.boundary.specs.Numbers.{Small, number_of, count_of, words_of, terms_of, most_of};

pub use crate::turn::take_turn;
use operations::{Comparison, Error, GreaterSide, Summary};

// The values of a reply.
pub type Values = [i64; 3];

// What an accepted call replies, as the values of a reply. No count among them is above `bound`.
pub trait Reply {
    ghost values_are: { Self → List ℤ };

    ghost bound: { Self → ℕ };

    fn values(self) -> Values
        requires { Small (bound self) }
        ensures { result ≡ values_are self };
}

impl Reply for usize {
    ghost values_are = { number_values };

    ghost bound = { count_of };

    fn values(self) -> Values {
        [self as i64, 0, 0]
    }
}

impl Reply for Comparison {
    ghost values_are = { comparison_values };

    ghost bound = { λ _. 0 };

    fn values(self) -> Values {
        [self.relation as i64, self.margin, 0]
    }
}

impl Reply for GreaterSide {
    ghost values_are = { side_values };

    ghost bound = { words_of };

    fn values(self) -> Values {
        match self {
            GreaterSide::Left { words } => [1, words as i64, 0],
            GreaterSide::Right { words } => [2, words as i64, 0],
            GreaterSide::Equivalent => [3, 0, 0],
            GreaterSide::Unrelated => [4, 0, 0],
        }
    }
}

// A number that may be none: how many terms there are, or the job of a turn.
impl Reply for Option<usize> {
    ghost values_are = { optional_values };

    ghost bound = { terms_of };

    fn values(self) -> Values {
        match self {
            Some(number) => [1, number as i64, 0],
            None => [2, 0, 0],
        }
    }
}

impl Reply for Summary {
    ghost values_are = { summary_values };

    ghost bound = { most_of };

    fn values(self) -> Values {
        [self.rules as i64, self.decreasing as i64, self.score as i64]
    }
}

// Stores the input and the offset of an error, and gives its code.
pub fn put_error(reply: &mut Values, code: u8, input: u8, offset: usize) -> u8
    requires { Small offset }
    ensures value { result ≡ code }
    ensures reply_after { reply.new ≡ sets reply.old 0 (pos input ∷ pos offset ∷ pos 0 ∷ []) }
{
    *reply = [input as i64, offset as i64, 0];
    code
}

// Stores the values of an answer, or the input and the offset of the error, and gives the code.
pub fn put<R: Reply>(reply: &mut Values, answer: Result<R, Error>) -> u8
    requires { Small (number_of R.bound (reply_of answer)) }
    ensures value { result ≡ code_of (reply_of answer) }
    ensures reply_after { reply.new ≡ sets reply.old 0 (values_of R.values_are (reply_of answer)) }
{
    match answer {
        Ok(value) => {
            *reply = value.values();
            0
        }
        Err(error) => put_error(
            reply,
            answers::number(error.code),
            error.input,
            error.offset,
        ),
    }
}
