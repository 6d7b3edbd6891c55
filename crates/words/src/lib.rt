// Clause 1.5: words of 32 bits, their kind and value, and a cursor over a list of them. A call that reads words, of a
// sheet or of another kind, reads them by it.
#![tactic(auto)]

pub mod cursor;

ghost use Rattle.std.specs.Prelude.{◌≡◌, ◌<◌};
ghost use Rattle.rules.specs.Words as Words;

use rules::Word;

// The kinds of words: 1 to 5 and 0 of a sheet's heading, 6 to 9 of its orders, 10 to 15 of a result. A `Word` has its kind
// as a number: the definitions compare it as one, and a waiting list numbers its kinds otherwise.
#[derive(Clone, Copy)]
pub enum Kind {
    Step = 0,
    Lower = 1,
    Upper = 2,
    Last = 3,
    Indicative = 4,
    Count = 5,
    Buy = 6,
    Sell = 7,
    Quantity = 8,
    Ignored = 9,
    Situation = 10,
    Price = 11,
    Purchase = 12,
    Total = 13,
    Fill = 14,
    Ending = 15,
}

// What a kind of 1 adds to a word: the kind has the upper 4 bits.
const KIND: u32 = 0x1000_0000;

// The kind and the value of a word. A `From` would have to stand in `rules`, whose edits each pay for every function.
pub fn word_of(word: u32) -> Word
    ensures { result ≡ Words.word_of word }
{
    Word {
        kind: word / KIND,
        value: word % KIND,
    }
}

// The word of a kind and a value, which have to fit their bits.
pub fn word(kind: u32, value: u32) -> u32
    requires { (kind < 16) × (value < 0x1000_0000) }
    ensures { result ≡ Words.word kind value }
{
    kind * KIND + value
}
