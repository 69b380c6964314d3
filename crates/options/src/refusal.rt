//! What a program says of words that it doesn't take.

ghost use Rattle.std.specs.Prelude.{◌≡◌, ◌⊎◌};
ghost use Rattle.clap.specs.Words.{Kinds, HasKind, kind_of};
ghost use Rattle.options.specs.Statuses.{IsFaultStatus, kind_status};

use clap::Error;
use clap::error::ErrorKind;
use std::io::Write;

// The status of words that `clap` refuses, or that ask for help.
fn status_of(error: &Error) -> u8
    ensures { result ≡ kind_status (kind_of error.now) }
{
    match error.kind() {
        ErrorKind::OutOfMemory => 7,
        ErrorKind::DisplayHelp | ErrorKind::DisplayVersion => 0,
        _ => 2,
    }
}

/// Prints for the user what `clap` says of the words, and gives the status to end with: 0 for help that was asked for, 2 for a fault of
/// words, 7 for want of memory, for which the program's name and `Memory` are printed.
pub fn refuse<E: Write>(program: &str, error: &Error, err: &mut E) -> u8
    ensures status { result ≡ kind_status (kind_of error.now) }
    ensures among { (kinds : Kinds) → HasKind kinds error.now → (result ≡ 7) ⊎ IsFaultStatus kinds result }
{
    let status = status_of(error);
    let _ = if status == 7 {
        writeln!(err, "{program}: Memory")
    } else {
        write!(err, "{error}")
    };
    status
}
