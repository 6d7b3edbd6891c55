// The opening program: reads a sheet from standard input, and prints the words of its opening or the
// refusal. All between reading and writing is `text::opening_text`. Started with an argument it reads
// nothing and says what it does.
#![tactic(auto)]

use host::{is_given, print_help, read_full, write_out};

const HELP: &str = "\
opening < SHEET

Reads a round sheet from standard input, as 32-bit words with the high byte first,
and prints the words of its opening's result, each as 8 hexadecimal digits on a line
of its own. A sheet with a fault is answered by one line: refused, the number of the
refusal, and the number of the order at fault, or 0.

docs/READING.md explains the words, docs/RULES.md the rules and the refusals.
";

fn print_opening(rt: &(impl Input + Print + Eprint)) {
    // One byte more than a sheet may have, so that input that is too long shows.
    let mut input = [0u8; text::MOST_BYTES + 1];
    // A read that fails counts as the end.
    let read = read_full(&mut rt.reader(), &mut input).unwrap_or_else(|cut| cut.count);
    let mut out = [0u8; 135045];
    let count = text::opening_text(&input[..read], &mut out);
    write_out(
        rt,
        &out[..count],
        "opening: not all of the result was written",
    );
}

fn main(rt: HostRuntime) {
    if is_given(&rt, 1) {
        print_help(&rt, HELP);
    } else {
        print_opening(&rt);
    }
}
