//! What standard error says once the questions of an input are replied to.

ghost use Rattle.std.specs.Prelude.{◌≡◌, ℕ, List};
ghost use Rattle.store_commands.specs.Served.{IsBuiltText, IsServingSaid, built_status, end_text, status_after};
ghost use Rattle.streams.specs.Streams.{IsSaid};

use answer_lines::Built;
use faults::Fault;
use printing::{NO_MEMORY, Teller, UNWRITTEN, Voice, tell_fault};
use serving::End;
use std::alloc::Global;
use std::io::Write;
use store_building::Served;
use streams::Stream;

const UNREAD: &str = "tp: standard input can't be read\n";

// Says how many trees the file has, or why the build came to an early end. Gives the status of that.
fn tell_built<T: Teller, E: Write + Drop>(
    alloc: Global,
    teller: &T,
    voice: &Voice<'_>,
    built: &Result<Built<'_>, Fault<'_>>,
    err: &mut Stream<E>,
) -> u8
    ensures status { result ≡ built_status built.now }
    ensures said { (text : List ℕ) × IsBuiltText T.telling voice.now built.now text
        × IsSaid text err.old err.new }
{
    match built {
        Ok(built) => {
            err.say(format_args!("stored {} of {}\n", built.stored, built.of));
            built.status()
        }
        Err(fault) => tell_fault(alloc, teller, voice, fault, err),
    }
}

// What is said of how the replies ended. An output that refused no write is no end of them.
fn end_text(end: End, refused: bool) -> &'static str
    ensures { result.now ≡ end_text end refused }
{
    match end {
        End::AllRead => "",
        End::Unread => UNREAD,
        End::OutputRefused => { if refused { UNWRITTEN } else { "" } }
        End::NoMemory => NO_MEMORY,
    }
}

// The status that says how the replies ended, beside a build of this status.
fn status_after(end: End, refused: bool, built: u8) -> u8
    ensures { result ≡ status_after end refused built }
{
    match end {
        End::AllRead | End::Unread => built,
        End::OutputRefused => { if refused { 8 } else { built } }
        End::NoMemory => 7,
    }
}

/// Says on standard error how replies and the build beside them ended, or why the store wasn't opened; a fault as the voice has it. The
/// flag says whether standard output refused a write. Gives the status.
pub fn tell_serving<T: Teller, E: Write + Drop>(
    alloc: Global,
    teller: &T,
    voice: &Voice<'_>,
    served: &Result<Served<'_>, Fault<'_>>,
    refused: bool,
    err: &mut Stream<E>,
) -> u8
    ensures { IsServingSaid T.telling voice.now served.now refused
        err.old err.new result }
{
    match served {
        Ok(served) => {
            let built = tell_built(alloc, teller, voice, &served.built, err);
            err.say(end_text(served.end, refused));
            status_after(served.end, refused, built)
        }
        Err(fault) => tell_fault(alloc, teller, voice, fault, err),
    }
}
