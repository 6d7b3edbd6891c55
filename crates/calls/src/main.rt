// Answers calls from standard input, one a line, each with a line of its own; `help` says how the lines
// read. Started with an argument it reads nothing and prints that help.
#![tactic(auto)]

mod answers;
mod fields;
mod help;
mod line;
mod space;
mod view;

use help::HELP;
use host::{is_given, print_help, read_some};
use line::Line;
use std::io;
use std::io::{Read, Write};

// Takes the bytes one by one, and answers each line where it ends. The answer goes out at once, since who asks may wait
// for it before the next line.
fn take_all(out: &mut impl Write, line: &mut Line, bytes: &[u8]) -> io::Result<()> {
    for byte in bytes {
        if *byte == b'\n' {
            line.end(out)?;
        } else {
            line.put(*byte);
        }
    }
    Ok(())
}

// Answers the lines of the input to its end, the last one also where its own end is missing. A read that fails ends the
// input too. A proved loop has to end, so it counts its turns up to a number that no run uses up.
fn answer_all(input: &mut impl Read, out: &mut impl Write) -> io::Result<()> {
    let mut line = Line::new();
    let mut buffer = [0u8; 4096];
    for _ in 0..u64::MAX {
        match read_some(input, &mut buffer) {
            Ok(0) | Err(_) => break,
            Ok(count) => take_all(out, &mut line, &buffer[..count])?,
        }
    }
    if line.is_begun() {
        line.end(out)?;
    }
    Ok(())
}

fn main(rt: HostRuntime) {
    if is_given(&rt, 1) {
        print_help(&rt, HELP);
    } else {
        // Where an answer cannot be written, there is nobody to be told, and no later line is answered.
        let _ = answer_all(&mut rt.reader(), &mut io::writer(&rt));
    }
}
