// A buffer of words.
ghost use Rattle.std.specs.Prelude.{[], ◌∷◌, ◌≡◌, ◌+◌, ◌≤◌, ◌<◌, length, take};
ghost use Rattle.pieces.specs.Buffer.{Put};

use crate::ROOM;

// Words put one after another: the first `count` of 48.
#[derive(Drop)]
pub struct Buffer {
    pub words: [u16; ROOM],
    pub count: usize,
    pub ghost room: { length words ≡ 48 },
    pub ghost few: { count ≤ 48 },
}

impl Buffer {
    pub fn empty() -> Buffer
        ensures { result.count ≡ 0 }
    {
        Buffer {
            words: [0; ROOM],
            count: 0,
        }
    }

    // The words that were put.
    pub fn as_slice(&self) -> &[u16]
        ensures { result.now ≡ take self.now.count self.now.words }
    {
        &self.words[..self.count]
    }

    // Puts a word after the others.
    pub fn push(&mut self, word: u16)
        requires { self.old.count < 48 }
        ensures { Put self.old.words self.old.count (word ∷ []) self.new.count self.new.words }
    {
        self.words[self.count] = word;
        self.count += 1;
    }

    // Puts words after the others.
    pub fn extend(&mut self, words: &[u16])
        requires { self.old.count + length words.now ≤ 48 }
        ensures { Put self.old.words self.old.count words.now self.new.count self.new.words }
    {
        let end = self.count + words.len();
        self.words[self.count..end].copy_from_slice(words);
        self.count = end;
    }
}
