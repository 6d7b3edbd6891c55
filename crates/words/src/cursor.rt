// A reader of words: each step gives a word and the cursor for the next.
ghost use Rattle.std.specs.Prelude.{◌≡◌, ◌+◌, ◌<◌, length};
ghost use Rattle.rules.specs.Words.{word_at};

use crate::word_of;
use rules::Word;

// A place in a list of words.
#[derive(Clone, Copy)]
pub struct Cursor {
    pub at: usize,
}

// The word at a place, and the place after it.
#[derive(Clone, Copy)]
pub struct Step {
    pub word: Word,
    pub next: Cursor,
}

impl Cursor {
    pub fn start() -> Cursor
        ensures { result.at ≡ 0 }
    {
        Cursor { at: 0 }
    }

    pub fn step(self, words: &[u32]) -> Step
        requires { self.at < length words.now }
        ensures { result ≡ record { word = word_at words.now self.at; next = record { at = self.at + 1 } } }
    {
        let at = self.at;
        Step {
            word: word_of(words[at]),
            next: Cursor { at: at + 1 },
        }
    }
}
