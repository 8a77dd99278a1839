// The form of a file.
ghost use Rattle.std.specs.Prelude.{◌≡◌, false};
ghost use Rattle.format.specs.Forms.{has_coefficients};

// The number of a form whose symbols have no coefficients. It is no enum of the forms that a reader is asked for, 1 and
// 2, since `read_head`, `read_packed` and `decoder::unpack` promise what they give for every other number too.
#[derive(Clone, Copy)]
pub struct Form {
    pub number: u16,
    ghost plain: { has_coefficients number ≡ false },
}
