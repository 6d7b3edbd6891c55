// What the programs share: arguments, reading to the end, and writing. std promises nothing of arguments or of what is
// printed, so only reading has clauses.
#![tactic(auto)]

ghost use Rattle.std.specs.Prelude.{◌≤◌, ◌<◌, length, take, IfOk, MatchResult};
ghost use Rattle.std.specs.Io.{ReadsAtMost};
ghost use Rattle.std.specs.Io.KnownBytes.{Consumes, IsAtEnd, ReadConsumes};

use std::env::FillError;
use std::io;
use std::io::{ErrorKind, Read};
use std::rt::Env;

// Whether the program was started with this argument, where 0 is its own name.
pub fn is_given(env: &impl Env, argument: usize) -> bool {
    !matches!(env.arg(argument, &mut []), Err(FillError::NotPresent))
}

// Reads once. A read that a signal cut short is tried again: a proved loop has to end, so it counts its turns up to a
// number that no run uses up.
pub fn read_some<R: Read>(input: &mut R, bytes: &mut [u8]) -> io::Result<usize>
    ensures bound { ReadsAtMost result bytes.new }
    ensures bytes { ReadConsumes (R.remaining input.old) (R.remaining input.new) result bytes.new }
{
    for _ in 0..u64::MAX {
        match input.read(bytes) {
            Err(error) if error.kind() == ErrorKind::Interrupted => {}
            read => return read,
        }
    }
    Err(io::Error::from(ErrorKind::Interrupted))
}

// A read failed behind so many bytes.
#[derive(Clone, Copy, Debug, PartialEq, Eq)]
pub struct Cut {
    pub count: usize,
}

// Reads until the bytes are full or the input ends, and answers how many were read.
pub fn read_full<R: Read>(input: &mut R, bytes: &mut [u8]) -> Result<usize, Cut>
    ensures bound { MatchResult result (λ n. n ≤ length bytes.new) (λ cut. cut.count ≤ length bytes.new) }
    ensures bytes { MatchResult result
        (λ n. Consumes (R.remaining input.old) (R.remaining input.new) (take n bytes.new))
        (λ cut. Consumes (R.remaining input.old) (R.remaining input.new) (take cut.count bytes.new)) }
    ensures end { IfOk result (λ n. n < length bytes.new → IsAtEnd (R.remaining input.new)) }
{
    let mut count = 0;
    // A read says how far the next one begins, so no `for` can count them.
    while count < bytes.len() {
        match read_some(input, &mut bytes[count..]) {
            Ok(0) => break,
            Ok(more) => count += more,
            Err(_) => return Err(Cut { count }),
        }
    }
    Ok(count)
}

// Where the help cannot be written, there is nobody to be told.
pub fn print_help(rt: &impl Print, help: &str) {
    let _ = rt.print(help);
}

// Writes all bytes to standard output, or tells on standard error that it did not.
pub fn write_out(rt: &(impl Print + Eprint), bytes: &[u8], not_written: &str) {
    if rt.write_all(bytes).is_err() {
        let _ = rt.eprintln(not_written);
    }
}
