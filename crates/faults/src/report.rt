//! The lines by which a fault is reported.

ghost use Rattle.std.specs.Prelude.{Some};
ghost use Rattle.faults.specs.Lines.{fault_lines};

use crate::fault::Fault;
use std::fmt;

/// A fault as `tp` prints it on standard error: a line with the program's name and the fault, and a line beneath it that says what to do,
/// if the fault has one.
#[derive(Clone, Copy)]
pub struct FaultLines<'a>(pub &'a Fault<'a>);

impl fmt::Display for FaultLines<'_> {
    ghost output = { λ lines. Some (fault_lines lines.0.now) };

    fn fmt<W: fmt::Write>(&self, f: &mut fmt::Formatter<W>) -> fmt::Result {
        writeln!(f, "tp: {}", self.0)?;
        match self.0.advice() {
            Some(advice) => writeln!(f, "{advice}"),
            None => Ok(()),
        }
    }
}
