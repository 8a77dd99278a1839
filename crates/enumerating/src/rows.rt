// Storing rows of words: one row, and rows that are stored already, after another front.
ghost use Rattle.std.specs.Prelude.{◌≡◌, List, ℕ, ◌+◌, ◌≤◌, ◌<◌, length};
ghost use Rattle.std.proofs.lemmas.List.Edits.{sets};
ghost use Rattle.enumerating.specs.Rows.{Refronted};

// Stores a row, by a loop: `copy_from_slice` would call `memmove` at the bottom of the walk, for a KB more of stack.
pub fn put_row(out: &mut [u16], at: usize, row: &[u16])
    requires { at + length row.now ≤ length out.old }
    ensures { out.new ≡ sets out.old at row.now }
{
    for i in 0..row.len() {
        out[at + i] = row[i];
    }
}

// Stores so many words of rows, as they are from another index on, but for the front of each row.
pub fn copy_rows(out: &mut [u16], from: usize, to: usize, count: usize, row: &[u16], front: usize)
    requires { (from + count ≤ to) × (to + count ≤ length out.old) × (0 < length row.now) }
    ensures by_index { (words : List ℕ) → Refronted row.now front (length row.now) out.old from count words →
        out.new ≡ sets out.old to words }
    ensures out_len_unchanged { length out.new ≡ length out.old }
{
    let mut column = 0;
    for i in 0..count {
        let word = if front <= column {
            out[from + i]
        } else {
            row[column]
        };
        out[to + i] = word;
        column = if column + 1 == row.len() {
            0
        } else {
            column + 1
        };
    }
}
