// What the header of a file says.
ghost use Rattle.std.specs.Prelude.{◌<◌};

use crate::form::Form;

// The form, how many symbols and rules there are, and the weight of a variable.
#[derive(Clone, Copy)]
pub struct Header {
    pub form: Form,
    pub symbols: usize,
    pub w0: u16,
    pub rules: usize,
    ghost few_symbols: { symbols < 256 },
    ghost few_rules: { rules < 1024 },
}
