//! A line of an input.

ghost use Rattle.std.specs.Prelude.{◌≡◌, IfOk, List, MatchOption, ℕ};
ghost use Rattle.std.specs.Str.Lines.{strip_carriage_return};
ghost use Rattle.question_lines.specs.Lines.{IsKept, ReadsLine};
ghost use Rattle.question_lines.specs.Questions.{IsQuestion, NotQuestion};

use crate::question::question_of;
use crate::reading::{KEPT, Part, read_part};
use questions::Question;
use std::alloc::{AllocError, Global};
use std::io;
use std::io::{BufRead, Error, ErrorKind};
use std::marker::Model;

/// The line of an input that was read last. It has room for the longest question, and a line that is longer than that isn't kept whole.
#[derive(Drop)]
pub struct Line {
    bytes: Vec<u8>,
}

impl Model for Line {
    ghost use Rattle.std.specs.Prelude.{ℕ, List, ◌≤◌, vec_capacity};

    ghost Value = { List ℕ };

    ghost view = { λ line. line.bytes.items };

    ghost invariant = { λ line. 65_538 ≤ vec_capacity line.bytes };
}

impl Line {
    /// An empty line. It takes all the memory that it ever needs, and fails only if that is refused.
    pub fn new(alloc: Global) -> Result<Line, AllocError> {
        let bytes = Vec::with_capacity(alloc, KEPT)?;
        Ok(Line { bytes })
    }

    /// Reads the next line of the input in place of the last one; false if there is none more. A line ends at a line feed, with which a
    /// carriage return before it goes, and the last one may lack its line feed, as of `str::lines`. It takes no memory.
    ///
    /// An `Err` says that the input can't be read. It is left open how much of it was read, and what is kept.
    pub fn read<R: BufRead>(&mut self, input: &mut R) -> io::Result<bool>
        ensures { IfOk result (ReadsLine (R.remaining input.old) (R.remaining input.new) self.new) }
    {
        self.bytes.clear();
        'parts: for _ in 0..u64::MAX {
            match read_part(input, &mut self.bytes)? {
                Part::More => {}
                Part::Line => {
                    self.drop_return();
                    return Ok(true);
                }
                Part::Rest => return Ok(!self.bytes.is_empty()),
            }
        }
        Err(Error::from(ErrorKind::Other))
    }

    // Takes a carriage return away at the line's end.
    fn drop_return(&mut self)
        ensures { self.new ≡ strip_carriage_return self.old }
    {
        if let Some(b'\r') = self.bytes.last() {
            let _return = self.bytes.pop();
        }
    }

    /// The question that the line is; none if it is none.
    pub fn question(&self) -> Option<Question<'_>>
        ensures { (line : List ℕ) → IsKept line self.now → MatchOption result (NotQuestion line) (IsQuestion line) }
    {
        question_of(&self.bytes)
    }
}
