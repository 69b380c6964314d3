//! Replies to the questions of an input, over the file of a store.

ghost use Rattle.store_commands.specs.Served.{IsServed};
ghost use Rattle.store_commands.specs.Served.{IsServedBy, dialogue_of};
ghost use Rattle.store_files.specs.Disks.{disks_of};
ghost use Rattle.printing.specs.Finished.{streams_of};

use crate::replies::FormatReplies;
use crate::served::tell_serving;
use crate::stores::OverStores;
use command_line::Plan;
use faults::Fault;
use option_words::{Style, Workers};
use printing::{Streams, Teller, Voice, tell_fault};
use program_system::{Ended, System};
use serving::{Lines, ReplyTeller};
use std::alloc::Global;
use std::io::{BufRead, Write};
use store_building::{Building, serve};
use store_files::{Access, Disks, Ready, StoreFile, open_ready, say_new};

/// A store that is served: its file, and how many workers build what it lacks.
#[derive(Clone, Copy)]
pub struct Site<'a> {
    pub file: StoreFile<'a>,
    pub workers: Workers,
}

// Replies to the questions of the input at the site, as `replies` says them.
fn serve_by<S: System, D: Disks, R: ReplyTeller, I: BufRead, O: Write + Drop, E: Write + Drop>(
    alloc: Global,
    on: &OverStores<'_, S, D>,
    voice: &Voice<'_>,
    site: &Site<'_>,
    replies: &R,
    input: &mut I,
    streams: Streams<O, E>,
) -> Ended<D::Store, O, E>
    ensures { IsServedBy (disks_of (D.opens on.now.disks.now) D.Store.honest D.Store.state D.Store.failures) S.Teller.telling
        site.now.file.basis.now site.now.file.rides site.now.file.path.now voice.now
        (dialogue_of (λ question reply text. R.tells replies.now site.now.file.basis.now question reply text) (R.tells_legs replies.now)
        (I.remaining input.old))
        (streams_of streams.out streams.err) (streams_of result.streams.out result.streams.err) result.status result.store }
{
    let teller = on.system.teller();
    let Streams { out, mut err } = streams;
    match open_ready(
        alloc,
        on.disks,
        &site.file,
        Access::Made { only_reads: false },
    ) {
        Err((fault, store)) => {
            let status = tell_fault(alloc, &teller, voice, &fault, &mut err);
            Ended {
                status,
                store,
                streams: Streams { out, err },
            }
        }
        Ok(ready) => {
            let Ready { disk, is_new } = ready;
            say_new(site.file.path, is_new, &mut err);
            let building = Building {
                basis: site.file.basis,
                rides: site.file.rides,
                workers: site.workers,
            };
            let threads = on.system.threads();
            let (served, disk, out) = serve(alloc, threads, &building, disk, replies, input, out);
            let refused = out.has_refused();
            let status = tell_serving(alloc, &teller, voice, &served, refused, &mut err);
            Ended {
                status,
                store: Some(disk),
                streams: Streams { out, err },
            }
        }
    }
}

/// Replies to the questions of the input, line by line, as the plan's style has the replies, at the site, while workers build the trees
/// that its file lacks. What a format reports is looked up before the file is opened.
pub fn run_serve<S: System, D: Disks, I: BufRead, O: Write + Drop, E: Write + Drop>(
    alloc: Global,
    on: &OverStores<'_, S, D>,
    plan: &Plan<'_>,
    voice: &Voice<'_>,
    site: &Site<'_>,
    input: &mut I,
    streams: Streams<O, E>,
) -> Ended<D::Store, O, E>
    ensures { IsServed (disks_of (D.opens on.now.disks.now) D.Store.honest D.Store.state D.Store.failures) S.Teller.telling
        (I.remaining input.old) plan.now.style voice.now site.now.file.basis.now site.now.file.rides site.now.file.path.now
        (streams_of streams.out streams.err) (streams_of result.streams.out result.streams.err) result.status result.store }
{
    let format = match plan.style {
        Style::Lines => return serve_by(alloc, on, voice, site, &Lines, input, streams),
        Style::Told(format) => format,
    };
    let teller = on.system.teller();
    let mut streams = streams;
    let Ok(lookup) = teller.lookup(alloc, plan) else {
        let status = tell_fault(alloc, &teller, voice, &Fault::Memory, &mut streams.err);
        return Ended {
            status,
            store: None,
            streams,
        };
    };
    let replies = FormatReplies {
        teller,
        format,
        lookup,
    };
    serve_by(alloc, on, voice, site, &replies, input, streams)
}
