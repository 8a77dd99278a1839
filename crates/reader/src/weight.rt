// The weight of a symbol, and the least weights by the arity.
ghost use Rattle.std.specs.Prelude.{◌≡◌, Bool, false, ℕ, ◌≤◌, ◌<◌, leb, length};
ghost use Rattle.format.specs.Errors.{weight_inadmissible};
ghost use Rattle.format.specs.Layout.{max_bytes, weight_width};
ghost use Rattle.format.specs.Forms.{least_weight_in};
ghost use Rattle.answers.specs.Answer.{reading, Below};
ghost use Rattle.bits.specs.Cursor.{told};
ghost use Rattle.reader.specs.Source.{input_of, source_of, tested};
ghost use Rattle.reader.specs.Symbol.{least_weights, LeastKept, Weighed};

use crate::field::field;
use crate::source::Source;
use answers::Fault;
use bits::BitCursor;
use format::{ARITIES, ErrorCode};

// The least weights of form 1 by the arity.
pub fn least_weights(w0: u16) -> [u16; ARITIES]
    ensures { result ≡ least_weights w0 false }
{
    [w0, 1, 0, 0, 0, 0, 0, 0]
}

// The weight here of a symbol of that arity, in a file of that form. Where it is below the least that is kept, as few
// are, the form is asked, and 0 is kept if the weight passes: the symbol has arity 1 and weighs 0.
pub fn read_weight(
    source: Source,
    form: u16,
    least: &mut [u16; ARITIES],
    arity: u16,
    cursor: BitCursor,
) -> Result<(usize, BitCursor), Fault>
    requires { (arity < 8) }
    ensures by_index { (w0 : ℕ) (weightless : Bool) → LeastKept form w0 weightless least.old →
        (reading (told result)
        ≡ tested (source_of (input_of source.entry)) weight_width
        (leb (least_weight_in form w0 arity)) weight_inadmissible cursor.at)
        × Weighed form w0 arity weightless (told result) least.new }
    ensures below { Below 65536 (told result) }
{
    let (weight, next) = field(source, cursor, format::WEIGHT_WIDTH)?;
    if weight < least[arity as usize] as usize {
        if !symbols::may_weigh_less(form, arity) {
            let code = ErrorCode::WeightInadmissible;
            let offset = cursor.at;
            return Err(Fault { code, offset });
        }
        least[arity as usize] = 0;
    }
    Ok((weight, next))
}
