// A line that is being read.
ghost use Rattle.std.specs.Prelude.{◌≤◌};
ghost use Rattle.std.specs.Option.{ForSome};
ghost use Rattle.calls.specs.declared.line.TheConstants.{LONGEST};

use crate::answers::{answer, unreadable};
use std::io;
use std::io::Write;

// The bytes of the longest line: 16,384 words of nine bytes, with a call's name and numbers before them.
const LONGEST: usize = 150000;

// A line as far as it is read, in a room of its own: the programs take no memory.
#[derive(Drop)]
pub(crate) struct Line {
    bytes: [u8; LONGEST],
    // None where the line is too long to be kept.
    len: Option<usize>,
    ghost kept: { ForSome len (λ n. n ≤ LONGEST) },
}

impl Line {
    pub(crate) fn new() -> Line {
        Line {
            bytes: [0; LONGEST],
            len: Some(0),
        }
    }

    pub(crate) fn put(&mut self, byte: u8) {
        if let Some(len) = self.len {
            if len < LONGEST {
                self.bytes[len] = byte;
                self.len = Some(len + 1);
            } else {
                self.len = None;
            }
        }
    }

    pub(crate) fn is_begun(&self) -> bool {
        self.len != Some(0)
    }

    // Answers the line, and begins the next.
    pub(crate) fn end(&mut self, out: &mut impl Write) -> io::Result<()> {
        match self.len {
            Some(len) => answer(out, &self.bytes[..len])?,
            None => unreadable(out)?,
        }
        self.len = Some(0);
        out.flush()
    }
}
