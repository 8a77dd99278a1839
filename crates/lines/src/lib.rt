// The lines that `marker` prints.
#![tactic(auto)]

ghost use Rattle.std.specs.Prelude.{◌≡◌, [], ◌∷◌, ◌+◌, ◌*◌, ◌^◌, ◌≤◌, ◌<◌, length};
ghost use Rattle.std.proofs.lemmas.List.Edits.{sets};
ghost use Rattle.operations.specs.Text.{ascii, decimal, signed_decimal, line};
ghost use Rattle.operations.specs.Score.{score_of};
ghost use Rattle.operations.specs.Report.{rule_lines, summary_lines};
ghost use Rattle.text.specs.Put.{Pushed};

use text::Text;

// The line of a refusal.
fn push_refusal(text: &mut Text, code: u64, offset: u64)
    requires { (text.old.end < 2 ^ 30) × (code < 10 ^ 9) × (offset < 10 ^ 9) }
    ensures pushed { Pushed text.old (line (ascii "refusal" ∷ decimal code ∷ decimal offset ∷ [])) text.new }
    ensures upper_bound { text.new.end ≤ text.old.end + 28 }
{
    text.push_bytes(b"refusal ");
    text.push_number(code, b' ');
    text.push_number(offset, b'\n');
}

// That line alone, and how many bytes it takes.
pub fn put_refusal(out: &mut [u8], code: u64, offset: u64) -> usize
    requires { (code < 10 ^ 9) × (offset < 10 ^ 9) }
    ensures value { result ≡ length (line (ascii "refusal" ∷ decimal code ∷ decimal offset ∷ [])) }
    ensures out_after { out.new ≡ sets out.old 0 (line (ascii "refusal" ∷ decimal code ∷ decimal offset ∷ [])) }
    ensures upper_bound { result ≤ 28 }
{
    let mut text = Text::new(out);
    push_refusal(&mut text, code, offset);
    text.end
}

// A line of a word and a number.
pub fn push_count(text: &mut Text, word: &[u8], n: u64)
    requires { (text.old.end + length word.now < 2 ^ 30) × (n < 10 ^ 9) }
    ensures pushed { Pushed text.old (line (word.now ∷ decimal n ∷ [])) text.new }
    ensures upper_bound { text.new.end ≤ text.old.end + length word.now + 11 }
{
    text.push_bytes(word);
    text.push_byte(b' ');
    text.push_number(n, b'\n');
}

// The line of a rule: its number, its mark and its margin.
fn push_rule(text: &mut Text, number: u64, mark: u64, margin: i64)
    requires { (text.old.end < 2 ^ 30) × (number < 10 ^ 9) × (mark < 10 ^ 9) }
    ensures pushed { Pushed text.old (line (decimal number ∷ decimal mark ∷ signed_decimal margin ∷ [])) text.new }
    ensures upper_bound { text.new.end ≤ text.old.end + 41 }
{
    text.push_number(number, b' ');
    text.push_number(mark, b' ');
    text.push_signed(margin);
    text.push_byte(b'\n');
}

// The lines of all rules, by their marks and margins.
pub fn push_rules(text: &mut Text, marks: &[u8], margins: &[i64])
    requires { (text.old.end < 2 ^ 20) × (length marks.now < 1024) × (length margins.now ≡ length marks.now) }
    ensures pushed { Pushed text.old (rule_lines 0 marks.now margins.now) text.new }
    ensures upper_bound { text.new.end ≤ text.old.end + 41 * length marks.now }
{
    for (i, &mark) in marks.iter().enumerate() {
        push_rule(text, i as u64, u64::from(mark), margins[i]);
    }
}

// The last two lines.
pub fn push_summary(text: &mut Text, decreasing: usize, rules: usize)
    requires { (text.old.end < 2 ^ 20) × (decreasing < 1024) }
    ensures pushed { Pushed text.old
        (summary_lines (record { rules = rules; decreasing = decreasing; score = score_of decreasing rules }))
        text.new }
    ensures upper_bound { text.new.end ≤ text.old.end + 25 }
{
    push_count(text, b"score", marks::score(decreasing, rules) as u64);
    let verdict = if decreasing == rules {
        b"accepted\n"
    } else {
        b"returned\n"
    };
    text.push_bytes(verdict);
}
