//! The words that a program was started with, and what it says before it has a job.

ghost use Rattle.std.specs.Prelude.{◌≡◌, IfOk, map, string_bytes};
ghost use Rattle.std.specs.Io.KnownBytes.{Keeps};
ghost use Rattle.std.specs.IoError.{error_kind};
ghost use Rattle.options.specs.Statuses.{IsShown, unread_status};

use std::alloc::{AllocError, Global};
use std::io;
use std::io::{ErrorKind, Write};

/// The words that the program was started with, the first of which is its name. An error is want of memory, or a word that is
/// no UTF-8: `unread` says which. No contract says which words a system hands over.
pub fn given_words(rt: &HostRuntime) -> io::Result<Vec<String>> {
    let mut words = Vec::new(rt.alloc());
    for word in std::env::args(rt)? {
        words.push(word)?;
    }
    Ok(words)
}

/// Says why the words couldn't be had, and gives the status of that: 7 for want of memory, 2 for a word that is no UTF-8.
pub fn unread<E: Write>(program: &str, error: &io::Error, err: &mut E) -> u8
    ensures { result ≡ unread_status (error_kind error.now) }
{
    if error.kind() == ErrorKind::OutOfMemory {
        return out_of_memory(program, err);
    }
    let _ = writeln!(err, "{program}: a word isn't UTF-8");
    2
}

/// The words as texts, in their order. It fails only if memory runs out.
pub fn texts<'a>(alloc: Global, words: &'a [String]) -> Result<Vec<&'a str>, AllocError>
    ensures { IfOk result (λ texts. map (λ text. text.now) texts.items ≡ map string_bytes words.entry.now) }
{
    let mut texts = Vec::with_capacity(alloc, words.len())?;
    for word in words {
        texts.push(word.as_str())?;
    }
    Ok(texts)
}

/// Says that memory ran out, and gives the status of that.
pub fn out_of_memory<E: Write>(program: &str, err: &mut E) -> u8
    ensures { result ≡ 7 }
{
    let _ = writeln!(err, "{program}: Memory");
    7
}

/// Says that standard output refused a write, and gives the status of that.
pub fn unwritten<E: Write>(program: &str, err: &mut E) -> u8
    ensures { result ≡ 8 }
{
    let _ = writeln!(err, "{program}: standard output refused a write");
    8
}

/// Shows what the words came to if they give nothing to do: help on `out`, a fault on `err`. Gives the status, which is 8 if `out` refuses
/// the help.
pub fn show<W: Write, E: Write>(
    program: &str,
    text: &[u8],
    status: u8,
    out: &mut W,
    err: &mut E,
) -> u8
    ensures shown { IsShown status result }
    ensures nothing { ¬ (status ≡ 0) → Keeps (W.contents out.old) (W.contents out.new) }
{
    if status != 0 {
        let _ = err.write_all(text);
        return status;
    }
    match out.write_all(text).and_then(|_| out.flush()) {
        Ok(()) => 0,
        Err(_) => unwritten(program, err),
    }
}
