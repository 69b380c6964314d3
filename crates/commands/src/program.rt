//! From what the words name to both streams.

ghost use Rattle.std.specs.Prelude.{◌≡◌, IfSome, None};
ghost use Rattle.commands.specs.Left.{IsStoredJob, IsStoredRead, all_left};
ghost use Rattle.commands.specs.Programs.{AreFaultsListed, IsJobRun, IsPlainRun, IsReadRun, IsRefused, folder_voice, word_voice};
ghost use Rattle.program_system.specs.World.{view_of};
ghost use Rattle.printing.specs.Finished.{IsFaulted, streams_of};

use crate::running::run_plan;
use crate::so_far::SoFar;
use command_line::{Given, Job, Unread, Word};
use faults::Fault;
use feed_commands::{check, stops};
use option_words::Style;
use printing::{
    Streams, Teller, Told, Voice, finish, print, say_no_memory, show, tell_fault, voice_of,
};
use program_system::System;
use std::alloc::Global;
use std::io::Write;

// Ends with what is reported, or its fault, without a store.
fn ended<T: Teller, O: Write + Drop, E: Write + Drop>(
    alloc: Global,
    teller: &T,
    voice: &Voice<'_>,
    told: Result<Told<'_>, Fault<'_>>,
    streams: Streams<O, E>,
) -> SoFar<O, E>
    ensures { IsPlainRun T.telling
        voice.now told.entry (streams_of streams.out streams.err) (streams_of result.streams.out result.streams.err)
        result.status result.left }
{
    let mut streams = streams;
    let status = finish(alloc, teller, voice, told, &mut streams);
    SoFar {
        status,
        left: None,
        streams,
    }
}

// How a command over a feed as a whole prints.
fn folder_voice<'a>(style: Style, feed: &'a str) -> Voice<'a>
    ensures { result ≡ folder_voice style feed.entry }
{
    Voice {
        style,
        given: Given::folder(feed),
    }
}

// Prints the faults and the statuses of the program.
fn list_faults<O: Write + Drop, E: Write + Drop>(
    alloc: Global,
    streams: Streams<O, E>,
) -> SoFar<O, E>
    ensures { AreFaultsListed (streams_of streams.out streams.err) (streams_of result.streams.out result.streams.err)
        result.status result.left }
{
    let mut streams = streams;
    let status = print(alloc, Told::Faults, &mut streams);
    SoFar {
        status,
        left: None,
        streams,
    }
}

// Does a job.
fn run_job<S: System, O: Write + Drop, E: Write + Drop>(
    alloc: Global,
    system: &S,
    job: &Job<'_>,
    streams: Streams<O, E>,
) -> SoFar<O, E>
    ensures run { IsJobRun (view_of (S.world system.now) S.Teller.telling) all_left None job.now
        (streams_of streams.out streams.err) (streams_of result.streams.out result.streams.err) result.status result.left }
    ensures left { IfSome result.left (λ _. IsStoredJob job.now) }
{
    let teller = system.teller();
    match job {
        Job::Faults => list_faults(alloc, streams),
        Job::Stops(search) => {
            let voice = folder_voice(search.style, search.feed);
            let told = stops(alloc, &teller, search);
            ended(alloc, &teller, &voice, told, streams)
        }
        Job::Check(asked) => {
            let voice = folder_voice(asked.style, asked.feed);
            let told = check(alloc, system, asked);
            ended(alloc, &teller, &voice, told, streams)
        }
        Job::Plan(plan) => match system.open_feed(alloc, plan.settings.feed) {
            Ok(files) => run_plan(alloc, system, plan, files, streams),
            Err(_) => ended(alloc, &teller, &voice_of(plan), Err(Fault::Memory), streams),
        },
    }
}

// Says a fault of the words in a style, with the word that is at fault. Gives the status.
fn tell_word<T: Teller, O: Write + Drop, E: Write + Drop>(
    alloc: Global,
    teller: &T,
    style: Style,
    word: Word<'_>,
    fault: &Fault<'_>,
    streams: &mut Streams<O, E>,
) -> u8
    ensures { IsFaulted T.telling (word_voice style word.entry) fault.now
        (streams_of streams.old.out streams.old.err) (streams_of streams.new.out streams.new.err) result }
{
    let voice = Voice {
        style,
        given: Given::word(word),
    };
    tell_fault(alloc, teller, &voice, fault, &mut streams.err)
}

// Shows what is to be shown of words that give no job, or says the fault of a day or a time. Gives the status.
fn refuse_words<T: Teller, O: Write + Drop, E: Write + Drop>(
    alloc: Global,
    teller: &T,
    why: &Unread<'_>,
    shown: &[u8],
    streams: &mut Streams<O, E>,
) -> u8
    ensures { IsRefused T.telling why.now
        (streams_of streams.old.out streams.old.err) (streams_of streams.new.out streams.new.err) result }
{
    match why {
        // What is to be shown of them took memory too.
        Unread::Shown(7) => say_no_memory(&mut streams.err),
        Unread::Shown(status) => show(shown, *status, streams),
        Unread::BadDate(style, word) => {
            tell_word(alloc, teller, *style, *word, &Fault::BadDate, streams)
        }
        Unread::BadTime(style, word) => {
            tell_word(alloc, teller, *style, *word, &Fault::BadTime, streams)
        }
    }
}

/// Does what the words say, by what they were read as, on the system. The answer goes to standard output, a fault to standard error, with a
/// line beneath it if there is something to do about it. `shown` is what is to be shown of words that give no job. A command over a store
/// is left to do, if nothing before it is at fault.
pub fn run_read<S: System, O: Write + Drop, E: Write + Drop>(
    alloc: Global,
    system: &S,
    read: &Result<Job<'_>, Unread<'_>>,
    shown: &[u8],
    streams: Streams<O, E>,
) -> SoFar<O, E>
    ensures run { IsReadRun (view_of (S.world system.now) S.Teller.telling) all_left None read.now
        (streams_of streams.out streams.err) (streams_of result.streams.out result.streams.err) result.status result.left }
    ensures left { IfSome result.left (λ _. IsStoredRead read.now) }
{
    match read {
        Ok(job) => run_job(alloc, system, job, streams),
        Err(why) => {
            let mut streams = streams;
            let teller = system.teller();
            let status = refuse_words(alloc, &teller, why, shown, &mut streams);
            SoFar {
                status,
                left: None,
                streams,
            }
        }
    }
}
