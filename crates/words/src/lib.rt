// Reading from words: a field, and the term at an offset or at the front.
#![tactic(auto)]

ghost use Rattle.std.specs.Prelude.{◌≡◌, cond, None, ℕ, min, ◌+◌, ◌-◌, ◌*◌, ◌^◌, ◌≤◌, ◌<◌, eqb, length};
ghost use Rattle.terms.specs.Signature.{Signature};
ghost use Rattle.terms.specs.Words.{first_variable};
ghost use Rattle.terms.specs.FirstUse.{unused_after_all};
ghost use Rattle.format.specs.declared.ErrorCode.TheVariants as error;
ghost use Rattle.format.specs.Layout.{max_nodes};
ghost use Rattle.format.specs.Reading.{word_below, word_source};
ghost use Rattle.format.specs.Format.{forest_reader, nodes_reader};
ghost use Rattle.format.specs.Statements.{Unscaled};
ghost use Rattle.symbols.specs.Arities.{Arities};
ghost use Rattle.answers.specs.Answer.{reading, Below, answered, answer_of, end_of, ended};
ghost use Rattle.words.specs.Terms.{node_check, reader_of};

use answers::{Fault, answer_of};
use format::{ErrorCode, FIRST_VARIABLE, NODE_WORDS};

// The word at an offset, which is to be below a bound, and the offset past it.
pub fn word_below(words: &[u16], at: usize, bound: usize) -> Result<(usize, usize), Fault>
    ensures result_value { reading result ≡ word_below words.now bound at }
    ensures below { Below bound result }
{
    if words.len() <= at {
        let code = ErrorCode::FieldMissing;
        return Err(Fault { code, offset: at });
    }
    let word = words[at] as usize;
    if bound <= word {
        let code = ErrorCode::WordTooWide;
        return Err(Fault { code, offset: at });
    }
    Ok((word, at + 1))
}

// The error where reading stops: a node too many, or a word that is missing.
fn end_error(at: usize, limit: usize) -> ErrorCode
    ensures { result ≡ cond (eqb at limit) error.TooManyNodes error.FieldMissing }
{
    if at == limit {
        return ErrorCode::TooManyNodes;
    }
    ErrorCode::FieldMissing
}

// Tests a node word: it may be too wide, a symbol that is not there, or a variable out of turn.
fn check_node(arities: &[u32; NODE_WORDS], lowest: usize, word: u16) -> Result<(), ErrorCode>
    ensures { result ≡ node_check arities.now lowest word }
{
    if NODE_WORDS <= word as usize {
        return Err(ErrorCode::WordTooWide);
    }
    if symbols::cell_at(arities, word) == 0 {
        return Err(ErrorCode::NoSuchSymbol);
    }
    if lowest < word as usize {
        return Err(ErrorCode::VariableOutOfTurn);
    }
    Ok(())
}

// Reads as many terms as are owed from an offset on, where the word of the lowest unused variable is given, and moves
// both past them, or tells the error at the offset where it stops. It reads a node and calls itself for what is then
// owed. Nodes are allowed up to the limit; it stops there or where the words end, so that one test serves both. The
// error is told by a reference, since this call in last place is no jump where a result comes back in two registers.
fn terms(
    words: &[u16],
    arities: &[u32; NODE_WORDS],
    lowest: &mut usize,
    at: &mut usize,
    error: &mut Option<ErrorCode>,
    limit: usize,
    stop: usize,
    owed: usize,
)
    requires at_le_limit { (at.old ≤ limit) × (limit ≤ 2 ^ 32) × (stop ≡ min limit (length words.now)) }
    requires at_bound { (owed + 2 ^ 32 * (limit - at.old) ≤ 2 ^ 60) × (256 ≤ lowest.old) × (lowest.old ≤ 272) }
    requires no_error { error.old ≡ None }
    ensures at_after { (σ : Signature) → Arities σ arities.now → (unused : ℕ) →
        lowest.old ≡ first_variable + unused →
        reading (answer_of error.new (lowest.new - first_variable) at.new)
        ≡ answered (unused_after_all unused)
        (forest_reader (word_source words.now) unused σ (limit - at.old) owed
        at.old) }
    ensures below { Below 17 (answer_of error.new (lowest.new - first_variable) at.new) }
    ensures le_lowest { (256 ≤ lowest.new) × (lowest.new ≤ 272) }
{
    if owed == 0 {
        return;
    }
    let here = *at;
    if stop <= here {
        *error = Some(end_error(here, limit));
        return;
    }
    let word = words[here];
    match check_node(arities, *lowest, word) {
        Err(code) => *error = Some(code),
        Ok(()) => {
            let cell = symbols::cell_at(arities, word);
            *lowest = variables::unused_after(*lowest, word as usize);
            *at = here + 1;
            terms(
                words,
                arities,
                lowest,
                at,
                error,
                limit,
                stop,
                (cell - 1) + (owed - 1),
            )
        }
    }
}

// Reads one term, of so many nodes at most, and gives the lowest unused variable after it and its end.
pub fn term(
    arities: &[u32; NODE_WORDS],
    words: &[u16],
    most: usize,
    unused: usize,
    at: usize,
) -> Result<(usize, usize), Fault>
    requires { (at ≤ 2 ^ 20) × (unused ≤ 16) × (most ≤ max_nodes) }
    ensures value { (σ : Signature) → Arities σ arities.now →
        reading result
        ≡ answered (unused_after_all unused) (nodes_reader (word_source words.now) most unused σ at) }
    ensures below { Below 17 result }
{
    let mut lowest = FIRST_VARIABLE as usize + unused;
    let mut end = at;
    let limit = at + most;
    let stop = limit.min(words.len());
    let mut error = None;
    terms(
        words,
        arities,
        &mut lowest,
        &mut end,
        &mut error,
        limit,
        stop,
        1,
    );
    answer_of(error, lowest - FIRST_VARIABLE as usize, end)
}

// How much of its words a term is to be: all of them, or those at the front.
#[derive(Clone, Copy)]
pub enum Extent {
    Whole,
    Front,
}

// Reads the term at the front of the words, which is to be as much of them as is said, and gives its end.
pub fn front_term(
    arities: &[u32; NODE_WORDS],
    words: &[u16],
    extent: Extent,
) -> Result<usize, Fault>
    ensures { (σ : Signature) → Arities σ arities.now → Unscaled σ →
        ended result ≡ end_of (reader_of extent σ words.now) }
{
    let (_, end) = term(arities, words, format::MAX_NODES, format::VARIABLES, 0)?;
    match extent {
        Extent::Whole if end != words.len() => {
            let code = ErrorCode::WordsLeftOver;
            Err(Fault { code, offset: end })
        }
        Extent::Whole => Ok(end),
        Extent::Front => Ok(end),
    }
}
