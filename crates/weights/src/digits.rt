// The occurrences of eight variables, as the digits of one number: a byte each, below 128.
ghost use Rattle.std.specs.Prelude.{◌≡◌, cond, ◌/◌, ◌%◌, ◌^◌, ◌≤◌, ◌<◌, eqb, IfSome};
ghost use Rattle.weights.specs.Digits.{first_greater, SmallDigits, digit_number};

// The highest bit of each of eight digits, and the bits below it.
const EIGHTH_BITS: u64 = 0x8080808080808080;

const LOWER_BITS: u64 = 0x7f7f7f7f7f7f7f7f;

// What a node adds to the digits of the eight variables whose words are 8 times `eight` and on.
pub fn occurrence(eight: usize, word: usize) -> u64
    ensures { (result ≡ cond (eqb (word / 8) eight) (256 ^ (word % 8)) 0) × (result ≤ 72057594037927936) }
{
    if word / 8 == eight {
        1u64 << (8 * (word % 8))
    } else {
        0
    }
}

// The first of the eight digits that is greater in `right`. All are below 128: 127 more than the right digit, less the
// left one, has an eighth bit exactly if the right one is greater.
pub fn first_greater(left: u64, right: u64) -> Option<usize>
    requires { SmallDigits 8 left × SmallDigits 8 right }
    ensures value { digit_number result ≡ first_greater 8 left right }
    ensures below { IfSome result (λ x. x < 8) }
{
    match u64::trailing_zeros(right + LOWER_BITS - left & EIGHTH_BITS) / 8 {
        8 => None,
        first => Some(first as usize),
    }
}
