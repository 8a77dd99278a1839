// The variables of node words in order of first use: the lowest unused number, and renumbering a rule in place.
#![tactic(auto)]

ghost use Rattle.std.specs.Prelude.{◌≡◌, List, ℕ, ◌+◌, ◌*◌, ◌≤◌, ◌<◌};
ghost use Rattle.terms.specs.Term.{variable_count};
ghost use Rattle.terms.specs.Words.{first_variable};
ghost use Rattle.terms.specs.FirstUse.{unused_after};
ghost use Rattle.format.specs.Layout.{max_nodes};
ghost use Rattle.format.specs.Forms.{unused_of};
ghost use Rattle.variables.specs.Renumbering.{Numbered, WordNumbered, RuleRenumbered};

use format::{FIRST_VARIABLE, VARIABLES};

// The lowest unused variable at the start of a rule of that form.
pub fn unused_at_start(form: u16) -> usize
    ensures { (result ≡ unused_of form) × (result ≤ 16) }
{
    if form == format::FIRST_FORM {
        VARIABLES
    } else {
        0
    }
}

// The word of the lowest unused variable after a node word that is in turn.
pub fn unused_after(unused: usize, word: usize) -> usize
    requires { (word < 272) × (word ≤ unused) × (unused ≤ 272) }
    ensures by_index { (n : ℕ) → unused ≡ first_variable + n → result ≡ first_variable + unused_after n word }
    ensures lower_bound { (unused ≤ result) × (result ≤ 272) }
{
    unused.max(word + 1)
}

// The new word of each variable that was met, and the lowest unused word of a variable.
#[derive(Clone, Copy)]
struct Renumbering {
    cells: [Option<u16>; VARIABLES],
    unused: u16,
}

impl Renumbering {
    // The new word of a node: that of its variable, and the lowest unused one where the variable is new. A symbol's
    // word is unchanged, and so is one that is no node's.
    fn rename(&mut self, word: u16) -> u16
        requires { self.old.unused < first_variable + 2 * max_nodes }
        ensures by_index { (seen : List ℕ) → word < first_variable + variable_count →
            Numbered seen self.old → WordNumbered seen word result self.new }
        ensures unused_bound { self.new.unused ≤ self.old.unused + 1 }
    {
        if word < FIRST_VARIABLE {
            return word;
        }
        let variable = usize::from(word - FIRST_VARIABLE);
        if VARIABLES <= variable {
            return word;
        }
        match self.cells[variable] {
            Some(known) => known,
            None => {
                let new = self.unused;
                self.cells[variable] = Some(new);
                self.unused = new + 1;
                new
            }
        }
    }
}

// Renumbers by first use the variables of a rule whose node words stand from an index up to another.
// The words are reached by index, since a part `words[start..end]` would want a second test, of the start.
pub fn renumber(words: &mut [u16], start: usize, end: usize)
    requires { end ≤ start + 2 * max_nodes }
    ensures { RuleRenumbered start end words.old words.new }
{
    if words.len() < end {
        return;
    }
    let mut renumbering = Renumbering {
        cells: [None; VARIABLES],
        unused: FIRST_VARIABLE,
    };
    for i in start..end {
        words[i] = renumbering.rename(words[i]);
    }
}
