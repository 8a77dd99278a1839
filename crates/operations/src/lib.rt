// What the operations reply, as types: each gives a Result, whose error is the first fault. What each gives back is
// defined in specs/; no function stands here.
#![tactic(auto)]

use format::ErrorCode;

// An error: its code, the input at fault, and the offset in it.
#[derive(Clone, Copy, PartialEq, Eq)]
pub struct Error {
    pub code: ErrorCode,
    pub input: u8,
    pub offset: usize,
}

// The marks, in the words of a page.
#[derive(Clone, Copy, PartialEq, Eq)]
pub enum Mark {
    FallsByWeight = 1,
    FallsByRank = 2,
    FallsByArguments = 3,
    FallsByHighTerms = 4,
    FallsByCount = 5,
    FallsByLowTerms = 6,
    VariableAdded = 7,
    LeftLighter = 8,
    SidesEqual = 9,
    NoCase = 10,
    FallsByWrapping = 11,
}

// How the left term is related to the right one, by the numbers of a reply.
#[derive(Clone, Copy, PartialEq, Eq)]
pub enum Relation {
    Greater = 1,
    Less = 2,
    Equivalent = 3,
    Unrelated = 4,
}

// The relation, and the weight of the left term less that of the right one.
#[derive(Clone, Copy, PartialEq, Eq)]
pub struct Comparison {
    pub relation: Relation,
    pub margin: i64,
}

// Which of two terms is greater, with the count of its words, or why neither is.
#[derive(Clone, Copy, PartialEq, Eq)]
pub enum GreaterSide {
    Left { words: usize },
    Right { words: usize },
    Equivalent,
    Unrelated,
}

// The counts of rules and of those that decrease, and the score.
#[derive(Clone, Copy, PartialEq, Eq)]
pub struct Summary {
    pub rules: usize,
    pub decreasing: usize,
    pub score: usize,
}

// A rule file in a buffer, by its start and length there, and how many of its rules are marked. 02: a desk.
#[repr(C)]
#[derive(Clone, Copy)]
pub struct Job {
    pub start: usize,
    pub length: usize,
    pub marked: usize,
}
