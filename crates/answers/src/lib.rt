// What is wrong where reading stops: the first fault.
#![tactic(auto)]

ghost use Rattle.std.specs.Prelude.{◌≡◌};
ghost use Rattle.answers.specs.Answer.{answer_of};
ghost use Rattle.format.specs.Errors.{number_of};
ghost use Rattle.operations.specs.Enums.{error_of};

use format::ErrorCode;
use operations::Error;

// The number of an error's code, as callers in C have it.
pub fn number(code: ErrorCode) -> u8
    ensures { result ≡ number_of code }
{
    code as u8
}

// An error's code, and the offset of what is at fault. A code is an `ErrorCode` where nothing else is said.
#[derive(Clone, Copy, PartialEq, Eq)]
pub struct Fault<C = ErrorCode> {
    pub code: C,
    pub offset: usize,
}

impl Fault {
    // The error that the fault is in an input.
    pub fn in_input(self, input: u8) -> Error
        ensures { error_of result ≡ record { code = number_of self.code; input = input; offset = self.offset } }
    {
        Error {
            code: self.code,
            input,
            offset: self.offset,
        }
    }
}

// The answer of code that told an error, if there was one, with a value and an offset beside it.
pub fn answer_of<C>(
    error: Option<C>,
    value: usize,
    offset: usize,
) -> Result<(usize, usize), Fault<C>>
    ensures { result ≡ answer_of error value offset }
{
    match error {
        None => Ok((value, offset)),
        Some(code) => Err(Fault { code, offset }),
    }
}
