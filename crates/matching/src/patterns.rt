// The words of a pattern.
ghost use Rattle.std.specs.Prelude.{◌≡◌, ◌≤◌, length};
ghost use Rattle.matching.specs.Bindings.{occurs_before};

// Does the word occur among the first n of the pattern?
pub fn occurs_before(pattern: &[u16], word: u16, n: usize) -> bool
    requires { n ≤ length pattern.now }
    ensures { result ≡ occurs_before pattern.now word n }
{
    pattern[..n].contains(&word)
}
