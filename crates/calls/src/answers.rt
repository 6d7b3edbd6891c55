// The answer to a line, printed.
use crate::fields::{Fields, MOST, cut};
use crate::space::{print_charged, print_written};
use crate::view::print_view;
use rules::{Band, Clock, Curves, Phase, Price, Refusal};
use std::io;
use std::io::Write;

// No `Display`: it would have to stand beside the types, in `rules`, which prints nothing.
pub(crate) fn print_refusal(out: &mut impl Write, refusal: Refusal) -> io::Result<()> {
    writeln!(out, "refused {} {}", refusal.number(), refusal.place())
}

pub(crate) fn unreadable(out: &mut impl Write) -> io::Result<()> {
    writeln!(out, "unreadable")
}

// The answer of a call: what it gives, or why it refuses.
pub(crate) fn print<W: Write, T, F: FnOnce(&mut W, T) -> io::Result<()>>(
    out: &mut W,
    answer: Result<T, Refusal>,
    print_given: F,
) -> io::Result<()>
    requires { F.IsAlwaysCallable print_given }
{
    match answer {
        Ok(given) => print_given(out, given),
        Err(refusal) => print_refusal(out, refusal),
    }
}

fn print_accepted(out: &mut impl Write, _: ()) -> io::Result<()> {
    writeln!(out, "accepted")
}

fn print_price(out: &mut impl Write, price: Price) -> io::Result<()> {
    writeln!(out, "{}", price.0)
}

fn print_curves(out: &mut impl Write, at: Curves) -> io::Result<()> {
    writeln!(out, "{} {} {}", at.demand.0, at.supply.0, at.volume.0)
}

fn print_band(out: &mut impl Write, band: Band) -> io::Result<()> {
    writeln!(out, "{} {}", band.lower.0, band.upper.0)
}

fn print_clock(out: &mut impl Write, clock: Clock) -> io::Result<()> {
    match clock.phase {
        Phase::Idle => write!(out, "0 0 0 ")?,
        Phase::Waiting { start, side } => write!(out, "1 {start} {} ", side.number())?,
    }
    writeln!(out, "{} {} {}", clock.lower.0, clock.upper.0, clock.due)
}

// The calls on a list of words that give numbers, printed; none where the fields make no sense. That of a view is on a
// sheet with a stored result behind it, that about waiting on a list of its own.
fn call_words(out: &mut impl Write, name: &[u8], mut fields: Fields<'_>) -> Option<io::Result<()>> {
    let mut room = [0u32; MOST];
    let printed = match name {
        b"check" => print(out, sheet::check(fields.words(&mut room)?), print_accepted),
        b"stepper" => {
            let order = fields.number()? as usize;
            let limit = auction::stepper_limit(fields.words(&mut room)?, order);
            print(out, limit, print_price)
        }
        b"curves" => {
            let price = fields.argument()?;
            let curves = auction::curves_at(fields.words(&mut room)?, price);
            print(out, curves, print_curves)
        }
        b"view" => {
            let round = fields.number()?;
            let count = fields.number()?;
            return print_view(out, round, count, fields.words(&mut room)?);
        }
        b"waiting" => {
            let lower = fields.argument()?;
            let upper = fields.argument()?;
            let clock = waiting::waiting_clock(lower, upper, fields.words(&mut room)?);
            print(out, clock, print_clock)
        }
        _ => return call_space(out, name, fields),
    };
    Some(printed)
}

// The calls on a sheet that write into a lent space, likewise.
fn call_space(out: &mut impl Write, name: &[u8], mut fields: Fields<'_>) -> Option<io::Result<()>> {
    let mut room = [0u32; MOST];
    let printed = match name {
        b"round" => {
            let size = fields.number()?;
            let words = fields.words(&mut room)?;
            print_written(out, size, |space| auction::first_round(words, space))
        }
        b"opening" => {
            let size = fields.number()?;
            let words = fields.words(&mut room)?;
            print_written(out, size, |space| auction::opening(words, space))
        }
        b"fees" => {
            let tariff = fields.tariff()?;
            let size = fields.number()?;
            let places = fields.number()?;
            print_charged(out, tariff, size, places, fields.words(&mut room)?)
        }
        _ => return call_band(out, name, fields),
    };
    Some(printed)
}

// The calls about bands, likewise.
fn call_band(out: &mut impl Write, name: &[u8], mut fields: Fields<'_>) -> Option<io::Result<()>> {
    let printed = match name {
        b"indicative" => {
            let lower = fields.argument()?;
            let upper = fields.argument()?;
            let traded = fields.number()?;
            let closing = fields.argument()?;
            let auction = fields.argument()?;
            fields.end()?;
            let indicative = band::indicative_price(lower, upper, traded, closing, auction);
            print(out, indicative, print_price)
        }
        b"next" => {
            let code = fields.argument()?;
            let indicative = fields.argument()?;
            fields.end()?;
            print(out, band::next_band(code, indicative), print_band)
        }
        b"widen" => {
            let lower = fields.argument()?;
            let upper = fields.argument()?;
            let side = fields.argument()?;
            fields.end()?;
            print(out, band::widened_band(lower, upper, side), print_band)
        }
        _ => return None,
    };
    Some(printed)
}

pub(crate) fn answer(out: &mut impl Write, line: &[u8]) -> io::Result<()> {
    match line.first() {
        None => Ok(()),
        Some(b'#') => {
            out.write_all(line)?;
            out.write_all(b"\n")
        }
        Some(_) => {
            let (name, text) = cut(line);
            call_words(out, name, Fields::new(text)).unwrap_or_else(|| unreadable(out))
        }
    }
}
