//! Tasks over a store, and what is printed of them.

ghost use Rattle.printing.specs.Finished.{streams_of};
ghost use Rattle.store_commands.specs.Stores.{IsTaskRun};
ghost use Rattle.store_files.specs.Disks.{disks_of};

use crate::storing::over_store;
use command_line::{Plan, Task};
use feed_commands::finish_found;
use printing::{Streams, voice_of};
use program_system::{Ended, System};
use std::alloc::Global;
use std::io::Write;
use store_files::{Disks, StoreFile};

/// What commands over a store are done on: the system, and where the files of stores lie.
#[derive(Clone, Copy)]
pub struct OverStores<'s, S: System, D: Disks> {
    pub system: &'s S,
    pub disks: &'s D,
}

/// Does the task of a plan over the file of a store, and prints what it finds, or says its fault.
pub fn run_task<S: System, D: Disks, O: Write + Drop, E: Write + Drop>(
    alloc: Global,
    on: &OverStores<'_, S, D>,
    plan: &Plan<'_>,
    file: &StoreFile<'_>,
    task: &Task<'_>,
    streams: Streams<O, E>,
) -> Ended<D::Store, O, E>
    ensures { IsTaskRun (disks_of (D.opens on.now.disks.now) D.Store.honest D.Store.state D.Store.failures) S.Teller.telling
        plan.now file.now.basis.now file.now.rides file.now.path.now task.now
        (streams_of streams.out streams.err) (streams_of result.streams.out result.streams.err) result.status result.store }
{
    let mut streams = streams;
    let (found, store) = over_store(alloc, on, plan.style, file, task, &mut streams.err);
    let teller = on.system.teller();
    let voice = voice_of(plan);
    let status = finish_found(
        alloc,
        &teller,
        &voice,
        plan,
        file.basis,
        found,
        &mut streams,
    );
    Ended {
        status,
        store,
        streams,
    }
}
