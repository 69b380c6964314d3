//! How a command ends.

ghost use Rattle.std.specs.Prelude.{◌≡◌};
ghost use Rattle.printing.specs.Finished.{IsFinished, IsNoMemory, IsShown, IsUnwritten, IsWritten, streams_of};

use crate::fault::{Voice, tell_fault};
use crate::output::Streams;
use crate::teller::Teller;
use crate::told::Told;
use faults::Fault;
use std::alloc::Global;
use std::io::Write;
use streams::{PrintFault, Stream};

/// What standard error says if memory ran out.
pub const NO_MEMORY: &str = "tp: Memory\n";

/// What standard error says if standard output refused a write.
pub const UNWRITTEN: &str = "tp: standard output refused a write\n";

/// Says that memory ran out, and gives the status of that.
pub fn say_no_memory<E: Write + Drop>(err: &mut Stream<E>) -> u8
    ensures { IsNoMemory err.old err.new result }
{
    err.say(NO_MEMORY);
    7
}

/// Says that standard output refused a write, and gives the status of that.
pub fn say_unwritten<E: Write + Drop>(err: &mut Stream<E>) -> u8
    ensures { IsUnwritten err.old err.new result }
{
    err.say(UNWRITTEN);
    8
}

/// Prints a text, or says why it couldn't be. Gives the status.
pub fn print<O: Write + Drop, E: Write + Drop>(
    alloc: Global,
    told: Told<'_>,
    streams: &mut Streams<O, E>,
) -> u8
    ensures { IsWritten told.entry (streams_of streams.old.out streams.old.err) (streams_of streams.new.out streams.new.err) result }
{
    let status = told.status();
    match streams.out.print(alloc, told) {
        Ok(()) => status,
        Err(PrintFault::Refused) => say_unwritten(&mut streams.err),
        Err(PrintFault::Memory) => say_no_memory(&mut streams.err),
    }
}

/// Shows a text that the words gave in place of a job: on standard output with status 0, as help that was asked for, else on standard
/// error. Gives the status to end with.
pub fn show<O: Write + Drop, E: Write + Drop>(
    text: &[u8],
    status: u8,
    streams: &mut Streams<O, E>,
) -> u8
    ensures { IsShown text.now status (streams_of streams.old.out streams.old.err) (streams_of streams.new.out streams.new.err) result }
{
    if status != 0 {
        let _ = streams.err.print_bytes(text);
        return status;
    }
    match streams.out.print_bytes(text) {
        Ok(()) => 0,
        Err(_) => say_unwritten(&mut streams.err),
    }
}

/// Prints what a command came to on standard output, or says its fault on standard error, as the voice has it. Gives the status to end
/// with.
pub fn finish<T: Teller, O: Write + Drop, E: Write + Drop>(
    alloc: Global,
    teller: &T,
    voice: &Voice<'_>,
    told: Result<Told<'_>, Fault<'_>>,
    streams: &mut Streams<O, E>,
) -> u8
    ensures { IsFinished T.telling voice.now told.entry
        (streams_of streams.old.out streams.old.err) (streams_of streams.new.out streams.new.err) result }
{
    match told {
        Ok(told) => print(alloc, told, streams),
        Err(fault) => tell_fault(alloc, teller, voice, &fault, &mut streams.err),
    }
}
