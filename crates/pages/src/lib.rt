// Clauses 11.6–11.11: the archive program but for its reading and writing, from the bytes of a sheet and the text of
// a stored result to the text that it prints.
#![tactic(auto)]

mod rounds;

ghost use Rattle.std.specs.Prelude.{[], true, ◌≡◌, ◌*◌, ◌≤◌, length};
ghost use Rattle.rules.specs.Answers.{gives};
ghost use Rattle.rules.specs.Listing.{sheet_in};
ghost use Rattle.rules.specs.Pages.{listing_fits, result_in, stored_text, archived_beside, archived, Archived};
ghost use Rattle.rules.specs.Sheet.{check_sheet};
ghost use Rattle.rules.specs.Stored.{open_stored, stored_answer};
ghost use Rattle.sheet.specs.Reading.{AcceptedAs};
ghost use Rattle.text.specs.Writing.{HasRoom, Puts};

use rounds::{write_different, write_no_listing, write_opened};
use rules::{Refusal, Sheet, Unopened};
use sheet::read_sheet;
use text::input::{input_fits, read_words};
use text::listing::{listing_fits, read_result};
use text::printed_lines::write_refusal;
use text::writer::Writer;
use text::{MOST_RESULT, MOST_WORDS};

// The text of a stored result beside an accepted sheet.
fn write_stored(sheet: &Sheet, words: &[u32], stored: &[u32], out: &mut Writer<'_>)
    requires accepted_as { AcceptedAs words.now sheet.now }
    requires stored_len_bound { (length stored.now ≤ 15005) × HasRoom 930000 out.old }
    ensures { Puts 930000 (stored_text words.now stored.now (stored_answer (open_stored words.now stored.now))) out.old out.new }
{
    match stored::opens(words, stored) {
        Ok(()) => write_opened(sheet, stored, out),
        Err(Unopened::Different(place)) => write_different(place, out),
        Err(Unopened::Refused(refusal)) => write_refusal(refusal, out),
    }
}

// The text beside an accepted sheet.
fn write_accepted(sheet: &Sheet, words: &[u32], res: &[u8], out: &mut Writer<'_>)
    requires accepted_as { AcceptedAs words.now sheet.now }
    requires in_bounds { HasRoom 930000 out.old }
    ensures { Puts 930000 (archived_beside (gives []) words.now res.now) out.old out.new }
{
    if !listing_fits(res) {
        return write_no_listing(out);
    }
    let mut stored = [0; MOST_RESULT];
    let stored = &mut stored[..res.len() / 9];
    read_result(res, stored);
    write_stored(sheet, words, stored, out);
}

// The text beside the words of any sheet: its refusal comes first.
fn write_beside(words: &[u32], res: &[u8], out: &mut Writer<'_>)
    requires { HasRoom 930000 out.old }
    ensures { Puts 930000 (archived_beside (check_sheet words.now) words.now res.now) out.old out.new }
{
    match read_sheet(words) {
        Ok(sheet) => write_accepted(&sheet, words, res, out),
        Err(refusal) => write_refusal(refusal, out),
    }
}

// The text for any bytes: those that do not fit are refused.
fn write_text(sheet: &[u8], res: &[u8], out: &mut Writer<'_>)
    requires { HasRoom 930000 out.old }
    ensures { Puts 930000 (archived sheet.now res.now) out.old out.new }
{
    if !input_fits(sheet) {
        return write_refusal(Refusal::Input, out);
    }
    let mut words = [0; MOST_WORDS];
    let words = &mut words[..sheet.len() / 4];
    read_words(sheet, words);
    write_beside(words, res, out);
}

// The text that the archive program prints, from the bytes of a sheet and the text of a stored result, and how many
// bytes it has. 930,000 bytes hold 7,600 for each of 121 rounds, and the lines before and behind them.
pub fn archive_text(sheet: &[u8], res: &[u8], out: &mut [u8; 930000]) -> usize
    ensures { Archived sheet.now res.now out.old out.new result }
{
    let mut writer = Writer::new(out);
    write_text(sheet, res, &mut writer);
    writer.count
}
