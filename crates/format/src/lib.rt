// The numbers of the file format, one name each: widths, limits and the errors' codes, as specs/Layout and specs/Errors
// have them. No function stands here.
#![tactic(auto)]

pub const FORM: u16 = 2;

// The form whose variables come in any order.
pub const FIRST_FORM: u16 = 1;

// The form whose symbols have coefficients.
pub const COEFFICIENT_FORM: u16 = 3;

pub const FORM_WIDTH: usize = 4;

pub const SYMBOL_COUNT_WIDTH: usize = 8;

// Also of w0.
pub const WEIGHT_WIDTH: usize = 16;

pub const RULE_COUNT_WIDTH: usize = 10;

pub const ARITY_WIDTH: usize = 3;

// How many arities there are.
pub const ARITIES: usize = 8;

pub const AC_WIDTH: usize = 1;

pub const RANK_WIDTH: usize = 8;

// How many ranks there are.
pub const RANKS: usize = 256;

pub const MAX_BYTES: usize = 32768;

pub const MAX_RULES: usize = 1023;

pub const MAX_SYMBOLS: usize = 255;

pub const MAX_NODES: usize = 128;

// The word of variable 0; the words below it are symbols' numbers.
pub const FIRST_VARIABLE: u16 = 256;

// How many variables there are.
pub const VARIABLES: usize = 16;

// How many words may be a node's.
pub const NODE_WORDS: usize = 272;

// Why an input is refused, by the numbers of the refusals.
#[derive(Clone, Copy, PartialEq, Eq)]
pub enum ErrorCode {
    FileTooLong = 1,
    FieldMissing = 2,
    WrongForm = 3,
    NoSymbols = 4,
    VariableWeightless = 5,
    AcNotBinary = 6,
    WeightInadmissible = 7,
    RankTaken = 8,
    NoSuchSymbol = 9,
    TooManyNodes = 10,
    BadPadding = 11,
    MarksTooShort = 12,
    WordsTooShort = 13,
    WordTooWide = 14,
    WordsLeftOver = 15,
    BytesTooShort = 16,
    OldForm = 17,
    VariableOutOfTurn = 18,
    PageTooShort = 19,
    SizeOutOfRange = 22,
    NoRoomForTerms = 23,
    NoSuchJob = 24,
    BadJob = 25,
}
