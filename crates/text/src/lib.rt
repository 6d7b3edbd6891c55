// Clauses 11.1–11.5: the opening program but for its reading and writing, from the bytes that it
// reads to the text that it prints. And clause 11.6: such a text, read back into the words of a result.
#![tactic(auto)]

pub mod input;
pub mod listing;
pub mod printed_lines;
pub mod writer;

ghost use Rattle.std.specs.Prelude.{◌≤◌, ◌*◌, ◌≡◌, length};
ghost use Rattle.claims.specs.Fits.{Within};
ghost use Rattle.rules.specs.Answers.{gives, downwards, space_answer};
ghost use Rattle.rules.specs.Listing.{sheet_in, printed_answer, printed, Printed};
ghost use Rattle.rules.specs.Opening.{opening_words};
ghost use Rattle.rules.specs.Sheet.{sheet_checks};
ghost use Rattle.text.specs.Writing.{HasRoom, Puts};

use input::{input_fits, read_words};
use printed_lines::{write_refusal, write_words};
use rules::Refusal;
use writer::Writer;

// The bytes of the longest sheet, and its words.
pub const MOST_BYTES: usize = 1464;

pub const MOST_WORDS: usize = MOST_BYTES / 4;

// The words of the result of an opening of 120 orders, 121 × 124 + 1.
pub const MOST_RESULT: usize = 15005;

// The text of an answer whose words, if it gives any, are the first of a space.
fn write_answer(answer: Result<usize, Refusal>, space: &[u32], out: &mut Writer<'_>)
    requires { HasRoom 135045 out.old × (length space.now ≤ 15005) × Within answer (length space.now) }
    ensures { Puts 135045 (printed_answer (space_answer answer space.now)) out.old out.new }
{
    match answer {
        Ok(count) => write_words(&space[..count], out),
        Err(refusal) => write_refusal(refusal, out),
    }
}

// The text for any bytes: those that do not fit are refused.
fn write_text(input: &[u8], out: &mut Writer<'_>)
    requires { HasRoom 135045 out.old }
    ensures { Puts 135045 (printed input.now) out.old out.new }
{
    if !input_fits(input) {
        return write_refusal(Refusal::Input, out);
    }
    let mut words = [0; MOST_WORDS];
    let words = &mut words[..input.len() / 4];
    read_words(input, words);
    let mut space = [0; MOST_RESULT];
    let answer = auction::opening(words, &mut space);
    write_answer(answer, &space, out);
}

// The text that the opening program prints, from the bytes that it reads, and how many bytes it has.
// 135,045 bytes hold a line of 9 for each of 15,005 words.
pub fn opening_text(input: &[u8], out: &mut [u8; 135045]) -> usize
    ensures { Printed input.now out.old out.new result }
{
    let mut writer = Writer::new(out);
    write_text(input, &mut writer);
    writer.count
}
