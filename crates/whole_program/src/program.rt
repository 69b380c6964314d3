//! The program, from its words to both streams.

ghost use Rattle.std.specs.Prelude.{map};
ghost use Rattle.commands.specs.Left.{IsReadDone, IsStoredRead};
ghost use Rattle.commands.specs.Programs.{IsProgramRun};
ghost use Rattle.printing.specs.Finished.{streams_of};
ghost use Rattle.program_system.specs.World.{view_of};
ghost use Rattle.store_files.specs.Disks.{disks_of};
ghost use Rattle.whole_program.specs.Stores.{over_stores};

use crate::stored::run_stored;
use command_grammar::matches_of;
use command_line::{Job, Unread, read_words};
use commands::{SoFar, run_read};
use feed_basis::Basis;
use printing::Streams;
use program_system::{Ended, System};
use std::alloc::Global;
use std::io::{BufRead, Write};
use store_commands::OverStores;
use store_files::Disks;

// Does the command over a store that is left of words that were read as this.
fn run_left<S: System, D: Disks, I: BufRead, O: Write + Drop, E: Write + Drop>(
    alloc: Global,
    on: &OverStores<'_, S, D>,
    read: &Result<Job<'_>, Unread<'_>>,
    basis: &Basis,
    input: &mut I,
    streams: Streams<O, E>,
) -> Ended<D::Store, O, E>
    requires { IsStoredRead read.now }
    ensures { IsReadDone (over_stores (disks_of (D.opens on.now.disks.now) D.Store.honest D.Store.state D.Store.failures) S.Teller.telling)
        (I.remaining input.old) read.now basis.now
        (streams_of streams.out streams.err) (streams_of result.streams.out result.streams.err) result.status result.store }
{
    match read {
        Ok(Job::Plan(plan)) => run_stored(alloc, on, plan, basis, input, streams),
        _ => unreachable!(),
    }
}

/// Reads the program's words, the first of which is its name, and does what they say on the system and its disks. The answer goes to
/// standard output, a fault to standard error, with a line beneath it if there is something to do about it. Questions that are asked line
/// by line stand in `input`.
///
/// The status is 0 if it is done; 1 if the feed or its days are at fault, or the system gives no randomness for hash keys; 2 for the words.
/// It is 3 if a stop has no tree, since it would be too large, memory was refused for it, or the questions ended before it was built. It is
/// 4 if the store is at fault, or its device; 5 if an audit found a difference; 6 if the question is at fault; 7 if memory ran out; 8 if
/// standard output refused a write.
pub fn run_words<'a, S: System, D: Disks, I: BufRead, O: Write + Drop, E: Write + Drop>(
    alloc: Global,
    system: &S,
    disks: &D,
    words: &'a [&'a str],
    input: &mut I,
    streams: Streams<O, E>,
) -> Ended<D::Store, O, E>
    ensures { IsProgramRun (view_of (S.world system.now) S.Teller.telling)
        (over_stores (disks_of (D.opens disks.now) D.Store.honest D.Store.state D.Store.failures) S.Teller.telling)
        (I.remaining input.old) (map (λ word. word.now) words.entry.now)
        (streams_of streams.out streams.err) (streams_of result.streams.out result.streams.err) result.status result.store }
{
    let matched = matches_of(alloc, words);
    let mut shown = Vec::new(alloc);
    let read = read_words(&matched, &mut shown);
    let SoFar {
        status,
        left,
        streams,
    } = run_read(alloc, system, &read, shown.as_slice(), streams);
    match left {
        Some(basis) => {
            let on = OverStores { system, disks };
            run_left(alloc, &on, &read, &basis, input, streams)
        }
        None => Ended {
            status,
            store: None,
            streams,
        },
    }
}
