// What is sought in a term.
ghost use Rattle.std.specs.Prelude.{◌≡◌, ◌+◌, ◌<◌, length};
ghost use Rattle.symbols.specs.Table.{signature_of};
ghost use Rattle.matching.specs.Bindings.{Matching};

use equivalence::keys::Keyed;

// The words of a pattern from the offset p on, which are sought in a term.
#[derive(Clone, Copy)]
pub struct Sought<'a> {
    pub term: Keyed<'a>,
    pub pattern: &'a [u16],
    pub p: usize,
    pub ghost matching: { ∥ Matching (signature_of term.table.now) term.words.now term.keys.now pattern.now ∥₁ },
}

impl<'a> Sought<'a> {
    // The words after the first.
    pub fn next(&self) -> Sought<'a>
        requires { self.now.p < length self.now.pattern.now }
        ensures table { result.term.table.now ≡ self.now.term.table.now }
        ensures words { result.term.words.now ≡ self.now.term.words.now }
        ensures pattern { result.pattern.now ≡ self.now.pattern.now }
        ensures offset { result.p ≡ self.now.p + 1 }
    {
        Sought {
            term: self.term,
            pattern: self.pattern,
            p: self.p + 1,
        }
    }
}
