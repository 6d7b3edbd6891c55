// The line `view`: a round of a stored result, its four numbers and its fills, all in decimal. The fills come through a
// view, as a program of an archive's reader would have them.
ghost use Rattle.calls.specs.Viewed.{ViewedFills};

use crate::answers::print_refusal;
use rules::{Summary, Unopened};
use std::io;
use std::io::Write;
use words::word_of;

// The fill words of the page that a view gives for a round. It alone holds a view here.
fn page_fills<'s, 'a>(sheet: &'s [u32], stored: &'a [u32], r: usize) -> Result<&'a [u32], Unopened>
    ensures { ViewedFills sheet.now stored.entry r result }
{
    let view = stored::open_result(sheet, stored)?;
    let page = view.round(r)?;
    Ok(page.fills)
}

// What is printed of a round: its numbers by the call for one round, its fills by a view.
fn read<'s, 'a>(
    sheet: &'s [u32],
    stored: &'a [u32],
    r: usize,
) -> Result<(Summary, &'a [u32]), Unopened> {
    let round = stored::read_round(sheet, stored, r)?;
    Ok((round.summary, page_fills(sheet, stored, r)?))
}

fn print_round(out: &mut impl Write, summary: Summary, fills: &[u32]) -> io::Result<()> {
    let Summary {
        situation,
        price,
        purchase,
        total,
    } = summary;
    write!(out, "{situation} {} {} {}", price.0, purchase.0, total.0)?;
    for word in fills {
        write!(out, " {}", word_of(*word).value)?;
    }
    writeln!(out)
}

// The first words, so many as counted, are the sheet, all others the stored result; none where there are not so many.
pub(crate) fn print_view(
    out: &mut impl Write,
    round: u64,
    count: u64,
    words: &[u32],
) -> Option<io::Result<()>> {
    let (sheet, stored) = words.split_at_checked(count as usize)?;
    Some(match read(sheet, stored, round as usize) {
        Ok((summary, fills)) => print_round(out, summary, fills),
        Err(Unopened::Different(place)) => writeln!(out, "different {place}"),
        Err(Unopened::Refused(refusal)) => print_refusal(out, refusal),
    })
}
