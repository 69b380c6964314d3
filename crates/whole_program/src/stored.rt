//! Commands over a store.

ghost use Rattle.commands.specs.Left.{IsDone, IsStoredCommand};
ghost use Rattle.printing.specs.Finished.{streams_of};
ghost use Rattle.store_files.specs.Disks.{disks_of};
ghost use Rattle.whole_program.specs.Stores.{over_stores};

use command_line::{Command, Plan, Search};
use feed_basis::Basis;
use printing::{Streams, voice_of};
use program_system::{Ended, System};
use std::alloc::Global;
use std::io::{BufRead, Write};
use store_commands::{OverStores, Site, run_serve, run_task};
use store_files::{Disks, StoreFile};
use timetable::Rides;

/// Does the command of a plan, which is one over a store, over the basis of its feed. Questions that are asked line by line stand in
/// `input`.
pub fn run_stored<S: System, D: Disks, I: BufRead, O: Write + Drop, E: Write + Drop>(
    alloc: Global,
    on: &OverStores<'_, S, D>,
    plan: &Plan<'_>,
    basis: &Basis,
    input: &mut I,
    streams: Streams<O, E>,
) -> Ended<D::Store, O, E>
    requires { IsStoredCommand plan.now.command }
    ensures { IsDone (over_stores (disks_of (D.opens on.now.disks.now) D.Store.honest D.Store.state D.Store.failures) S.Teller.telling)
        (I.remaining input.old) plan.now basis.now plan.now.command
        (streams_of streams.out streams.err) (streams_of result.streams.out result.streams.err) result.status result.store }
{
    let rides = Rides::new(plan.settings.rides);
    match &plan.command {
        Command::Find(search) => match search {
            Search::Stored { store, task } => {
                let file = StoreFile {
                    path: store,
                    basis,
                    rides,
                };
                run_task(alloc, on, plan, &file, task, streams)
            }
            _ => unreachable!(),
        },
        Command::Serve { store, workers } => {
            let site = Site {
                file: StoreFile {
                    path: store,
                    basis,
                    rides,
                },
                workers: *workers,
            };
            run_serve(alloc, on, plan, &voice_of(plan), &site, input, streams)
        }
        Command::Matrix { .. } => unreachable!(),
    }
}
