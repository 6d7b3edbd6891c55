// The lines that the opening program prints.
ghost use Rattle.std.specs.Prelude.{◌*◌, length};
ghost use Rattle.rules.specs.Answers.{refused};
ghost use Rattle.rules.specs.Listing.{word_line, word_lines, printed_answer};
ghost use Rattle.text.specs.Writing.{HasRoom, Puts};

use crate::writer::Writer;
use rules::Refusal;

// A word's line: 8 hexadecimal digits and a newline.
fn write_word(word: u32, out: &mut Writer<'_>)
    requires { HasRoom 9 out.old }
    ensures { Puts 9 (word_line word) out.old out.new }
{
    let mut digits = [0u8; 16];
    let count = io::hex(u64::from(word), 8, &mut digits);
    out.put(&digits[..count]);
    out.put(b"\n");
}

// The lines of some words.
pub(crate) fn write_words(words: &[u32], out: &mut Writer<'_>)
    requires { HasRoom (9 * length words.now) out.old }
    ensures { Puts (9 * length words.now) (word_lines words.now) out.old out.new }
{
    for word in words {
        write_word(*word, out);
    }
}

// The line of a refusal: `refused`, its number and its place, at most 8 + 21 + 21 bytes.
pub fn write_refusal(refusal: Refusal, out: &mut Writer<'_>)
    requires { HasRoom 50 out.old }
    ensures { Puts 50 (printed_answer (refused refusal)) out.old out.new }
{
    out.put(b"refused ");
    out.number(u64::from(refusal.number()));
    out.put(b" ");
    out.number(refusal.place() as u64);
    out.put(b"\n");
}
