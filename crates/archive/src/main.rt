// The archive program: reads the two files that its arguments name, a sheet and the text of its stored result, and prints
// the result in words, or where it differs from what the sheet's opening writes. All between reading and writing is
// `pages::archive_text`. Started with any other number of arguments it reads nothing and says what it does.
#![tactic(auto)]

ghost use Rattle.std.specs.Prelude.{◌≤◌, length, IfSome};

use host::{is_given, print_help, read_full, write_out};
use std::fs::File;
use std::rt::{Env, Files};
use std::str;

const HELP: &str = "\
archive SHEET RESULT

Reads a round sheet and the stored result of its opening from two files, as the opening
program reads and prints them: 32-bit words with the high byte first, and lines of 8
hexadecimal digits. If the result is just what the sheet's opening writes, it is printed
round by round in words: situation, prices, total, who gets how many pieces, and how it
ended. Else the first difference is said. A sheet with a fault is answered by one line:
refused, the number of the refusal, and the number of the order at fault, or 0.

docs/READING.md explains the words, docs/RULES.md the rules and the refusals.
";

// The bytes of the file that an argument names, none where it cannot be read. A name that is too long, or no UTF-8 text,
// names no file.
fn take<'a>(rt: &(impl Env + Files), argument: usize, bytes: &'a mut [u8]) -> Option<&'a [u8]>
    ensures { IfSome result (λ read. length read.now ≤ length bytes.old) }
{
    let mut name = [0u8; 4096];
    let size = rt.arg(argument, &mut name).ok()?;
    let name = str::from_utf8(&name[..size]).ok()?;
    let mut file = File::open(rt, name).ok()?;
    let count = read_full(&mut file, bytes).ok()?;
    Some(&bytes[..count])
}

fn print_archived(rt: &(impl Print + Eprint), sheet: &[u8], res: &[u8]) {
    let mut out = [0u8; 930000];
    let count = pages::archive_text(sheet, res, &mut out);
    write_out(
        rt,
        &out[..count],
        "archive: not all of the text was written",
    );
}

fn archive<R: Env + Files + Print + Eprint>(rt: &R) {
    // One byte more than a sheet and a result may have, so that a file that is too long shows.
    let mut sheet = [0u8; text::MOST_BYTES + 1];
    let mut result = [0u8; text::listing::MOST_LISTED + 1];
    match (take(rt, 1, &mut sheet), take(rt, 2, &mut result)) {
        (Some(sheet), Some(result)) => print_archived(rt, sheet, result),
        (None, _) => {
            let _ = rt.eprintln("archive: the sheet could not be read");
        }
        (_, None) => {
            let _ = rt.eprintln("archive: the result could not be read");
        }
    }
}

fn main(rt: HostRuntime) {
    if !is_given(&rt, 2) | is_given(&rt, 3) {
        print_help(&rt, HELP);
    } else {
        archive(&rt);
    }
}
