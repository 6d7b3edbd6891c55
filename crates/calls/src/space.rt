// The calls that write into a lent space, printed: the words written, in hexadecimal, with single spaces; where
// fees are written too, then the word `fees` and the fees, in decimal.
ghost use Rattle.std.specs.Prelude.{◌≤◌, length};

use crate::answers::print;
use rules::{Refusal, Tariff};
use std::io;
use std::io::Write;

// The words that the program has to lend. An opening of 120 orders needs 15,005.
const WORDS: usize = 16384;

// The places for fees that the program has to lend. 120 orders need as many.
const PLACES: usize = 128;

// As much of a room as is asked for, or all of it.
fn lent<T>(room: &mut [T], asked: u64) -> &mut [T]
    ensures { length result.now ≤ length room.old }
{
    let most = room.len() as u64;
    &mut room[..asked.min(most) as usize]
}

fn print_words(out: &mut impl Write, words: &[u32]) -> io::Result<()> {
    for (i, word) in words.iter().enumerate() {
        if 0 < i {
            write!(out, " ")?;
        }
        write!(out, "{word:08x}")?;
    }
    Ok(())
}

// A call on a space of so many words.
pub(crate) fn print_written<F: FnOnce(&mut [u32]) -> Result<usize, Refusal>>(
    out: &mut impl Write,
    size: u64,
    call: F,
) -> io::Result<()>
    requires { F.IsAlwaysCallable call }
{
    let mut room = [0u32; WORDS];
    let space = lent(&mut room, size);
    print(out, call(space), |out, count| match space.get(..count) {
        Some(words) => {
            print_words(out, words)?;
            writeln!(out)
        }
        None => Ok(()),
    })
}

fn print_fees(out: &mut impl Write, fees: &[u64]) -> io::Result<()> {
    write!(out, " fees")?;
    for fee in fees {
        write!(out, " {fee}")?;
    }
    writeln!(out)
}

// The opening with fees, with a space of so many words and a list of so many places.
pub(crate) fn print_charged(
    out: &mut impl Write,
    tariff: Tariff,
    size: u64,
    places: u64,
    words: &[u32],
) -> io::Result<()> {
    let mut room = [0u32; WORDS];
    let mut list = [0u64; PLACES];
    let space = lent(&mut room, size);
    let fees = lent(&mut list, places);
    let written = auction::opening_fees(words, tariff, space, fees);
    print(out, written, |out, count| {
        if let Some(words) = space.get(..count) {
            print_words(out, words)?;
        }
        match fees.get(..sheet::order_count(words)) {
            Some(fees) => print_fees(out, fees),
            None => Ok(()),
        }
    })
}
