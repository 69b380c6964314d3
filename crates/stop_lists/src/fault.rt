//! Why a file of stops isn't read, and where an id stands in one.

ghost use Rattle.std.specs.Prelude.{◌≡◌, Some};
ghost use Rattle.stop_lists.specs.Faults.{advice_text, fault_lines, fault_text, place_line};

use shown_ids::Shown;
use std::fmt;

/// Why a file of stops isn't read.
#[derive(Clone, Copy)]
pub enum ListFault {
    /// The system can't read it.
    ReadFailed,
    /// It isn't UTF-8.
    BadText,
    /// It has more than `LONGEST` bytes.
    TooLarge,
    Memory,
}

pub const READ_FAILED: &str =
    "That file can't be read: see that it is there, and that you may read it.";

pub const BAD_TEXT: &str =
    "That file isn't UTF-8: write it as a text with the id of a stop on each line.";

pub const TOO_LARGE: &str =
    "That file is larger than 67108864 bytes: list its stops in several files, and ask for each.";

pub const OUT_OF_MEMORY: &str = "There was no memory to read that file.";

impl ListFault {
    // The code and the name.
    fn text(self) -> &'static str
        ensures { result.now ≡ fault_text self }
    {
        match self {
            ListFault::ReadFailed => "L1 ReadFailed",
            ListFault::BadText => "L2 BadText",
            ListFault::TooLarge => "L3 TooLarge",
            ListFault::Memory => "L4 Memory",
        }
    }

    // What to do about it.
    fn advice(self) -> &'static str
        ensures { result.now ≡ advice_text self }
    {
        match self {
            ListFault::ReadFailed => READ_FAILED,
            ListFault::BadText => BAD_TEXT,
            ListFault::TooLarge => TOO_LARGE,
            ListFault::Memory => OUT_OF_MEMORY,
        }
    }
}

/// A fault of the file of a path, as `tp` prints it on standard error: a line with the program's name, the fault and the path, and a line
/// beneath it that says what to do.
#[derive(Clone, Copy)]
pub struct ListFaultLines<'a> {
    pub path: &'a str,
    pub fault: ListFault,
}

impl fmt::Display for ListFaultLines<'_> {
    ghost output = { λ lines. Some (fault_lines lines.path.now lines.fault) };

    fn fmt<W: fmt::Write>(&self, f: &mut fmt::Formatter<W>) -> fmt::Result {
        let (text, advice) = (self.fault.text(), self.fault.advice());
        writeln!(f, "tp: {text} {}", Shown(self.path))?;
        writeln!(f, "{advice}")
    }
}

/// Where an id stands in the file of a path, as `tp` prints it on standard error: a line with the path and the number of the file's line,
/// from 1.
#[derive(Clone, Copy)]
pub struct PlaceLine<'a> {
    pub path: &'a str,
    pub line: usize,
}

impl fmt::Display for PlaceLine<'_> {
    ghost output = { λ place. Some (place_line place.path.now place.line) };

    fn fmt<W: fmt::Write>(&self, f: &mut fmt::Formatter<W>) -> fmt::Result {
        writeln!(f, "given: {} line {}", Shown(self.path), self.line)
    }
}
