//! Prints what the program answers and reports.

ghost use Rattle.std.specs.Prelude.{◌≡◌, ◌≢◌, Err, IfSome, OnOk};
ghost use Rattle.std.specs.Io.KnownBytes.{Appends, Keeps};
ghost use Rattle.answer_lines.specs.Printing.{AppendsBeginning};

use std::alloc::{AllocError, Global};
use std::fmt::Display;
use std::format;
use std::io::{ErrorKind, Write};

/// Why a text wasn't printed whole.
#[derive(Clone, Copy, Debug, PartialEq, Eq)]
pub enum PrintFault {
    /// The writer refused a write: a beginning of the text may stand there.
    Refused,
    /// Memory was refused: nothing was written.
    Memory,
}

impl From<AllocError> for PrintFault {
    ghost use Rattle.std.specs.Prelude.{◌≡◌};
    ghost use Rattle.answer_lines.specs.declared.printing.PrintFault.TheVariants.{Memory};

    ghost from_gives = { λ _ e. e ≡ Memory };

    fn from(_e: AllocError) -> PrintFault {
        PrintFault::Memory
    }
}

// Writes the bytes. If the writer refuses, some of them from the first on were written.
fn write_bytes<W: Write>(out: &mut W, bytes: &[u8]) -> Result<(), PrintFault>
    ensures ok { OnOk result (Appends (W.contents out.old) (W.contents out.new) bytes.now) }
    ensures refused { result ≡ Err PrintFault.Refused → AppendsBeginning (W.contents out.old) (W.contents out.new) bytes.now }
    ensures memory { result ≢ Err PrintFault.Memory }
{
    let mut rest = bytes;
    'writes: for _ in 0..u64::MAX {
        if rest.is_empty() {
            return Ok(());
        }
        match out.write(rest) {
            Ok(0) => return Err(PrintFault::Refused),
            Ok(count) => rest = &rest[count..],
            Err(error) => {
                if error.kind() != ErrorKind::Interrupted {
                    return Err(PrintFault::Refused);
                }
            }
        }
    }
    Err(PrintFault::Refused)
}

/// Writes bytes on `out`, and flushes. It takes no memory. If `out` refuses a write, a beginning of the bytes stands there, all of them if
/// only the flush was refused.
pub fn print_bytes<W: Write>(bytes: &[u8], out: &mut W) -> Result<(), PrintFault>
    ensures ok { OnOk result (Appends (W.contents out.old) (W.contents out.new) bytes.now) }
    ensures refused { result ≡ Err PrintFault.Refused → AppendsBeginning (W.contents out.old) (W.contents out.new) bytes.now }
    ensures memory { result ≢ Err PrintFault.Memory }
{
    write_bytes(out, bytes)?;
    match out.flush() {
        Ok(()) => Ok(()),
        Err(_) => Err(PrintFault::Refused),
    }
}

/// Prints a text on `out`, and flushes. If `out` refuses a write, a beginning of the text stands there, all of it if only the flush was
/// refused. If memory runs out, nothing stands there.
pub fn print<T: Display + Drop, W: Write>(
    alloc: Global,
    text: T,
    out: &mut W,
) -> Result<(), PrintFault>
    ensures ok { OnOk result (IfSome (T.output text) (Appends (W.contents out.old) (W.contents out.new))) }
    ensures refused { result ≡ Err PrintFault.Refused
        → IfSome (T.output text) (AppendsBeginning (W.contents out.old) (W.contents out.new)) }
    ensures memory { result ≡ Err PrintFault.Memory → Keeps (W.contents out.old) (W.contents out.new) }
{
    let text = format!(in alloc; "{text}")?;
    print_bytes(text.as_bytes(), out)
}
