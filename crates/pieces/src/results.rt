// A term with the instance of a rule's side in place of one of its parts: its words, and how many they are.
ghost use Rattle.std.specs.Prelude.{◌≡◌, ◌+◌, ◌≤◌, length};
ghost use Rattle.symbols.specs.Table.{signature_of};
ghost use Rattle.pieces.specs.Buffer.{Put};
ghost use Rattle.pieces.specs.Results.{result_words, IsResult};

use crate::bindings::Bindings;
use crate::buffer::Buffer;
use crate::instances::put_instance;
use crate::sizes::instance_size;
use equivalence::keys::Keyed;

// How many words the term has with the instance in place of the part at i.
pub fn result_size(term: &Keyed, bindings: &Bindings, pattern: &[u16], i: usize) -> usize
    requires { IsResult (signature_of term.now.table.now) term.now.words.now bindings.now.offsets bindings.now.masks
        pattern.now i }
    ensures { result ≡ length (result_words (signature_of term.now.table.now) term.now.words.now
        bindings.now.offsets bindings.now.masks pattern.now i) }
{
    instance_size(term, bindings, pattern) + (term.words.len() - term.size_at(i))
}

// Puts its words.
pub fn put_result(term: &Keyed, bindings: &Bindings, pattern: &[u16], i: usize, out: &mut Buffer)
    requires fact { IsResult (signature_of term.now.table.now) term.now.words.now bindings.now.offsets
        bindings.now.masks pattern.now i }
    requires room { out.old.count + length (result_words (signature_of term.now.table.now) term.now.words.now
        bindings.now.offsets bindings.now.masks pattern.now i) ≤ 48 }
    ensures { Put out.old.words out.old.count (result_words (signature_of term.now.table.now) term.now.words.now
        bindings.now.offsets bindings.now.masks pattern.now i) out.new.count out.new.words }
{
    out.extend(&term.words[..i]);
    put_instance(term, bindings, pattern, out);
    let rest = i + term.size_at(i);
    out.extend(&term.words[rest..]);
}
