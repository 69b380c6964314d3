//! A planner, opened over a store with two trees.

use crate::seen::Seen;
use crate::stores::want_of;
use direct_connections::Network;
use disk_model::{Disk, MemDisk};
use feed_ids::Names;
use feed_timetable::names_of;
use planner::{OpenFault, Opened, Planner};
use sample_feed::{Feed, tables_of};
use sample_store::{Sample, TEXTS, bytes_of, file_of};
use std::alloc::{AllocError, Global};
use std::hash::RandomState;
use std::sync::{Arc, Wait};
use std::test::Fail;
use timetable::{Rides, Timetable};

// The names of the sample feed.
fn sample_names(rt: &HostRuntime) -> Result<Arc<Names>, Fail> {
    let keys = RandomState::new(rt)?;
    let tables = tables_of(rt, Feed::SAMPLE)?;
    let names = names_of(rt.alloc(), keys, &tables)?;
    Ok(Arc::new(rt.alloc(), names)?)
}

// What an opening says of memory; none of any other fault.
fn name_of(fault: OpenFault, failures: u64) -> Option<&'static str> {
    match fault {
        OpenFault::Memory => Some("Memory"),
        OpenFault::Recover(fault) => want_of(fault, failures),
    }
}

// An opening: how many trees are stored, or why it was refused, and the disk.
type Answer = Result<usize, (OpenFault, MemDisk)>;

// Opens a planner over the disk, for journeys of at most three rides.
fn open<R: Wait>(
    waits: &R,
    alloc: Global,
    table: &Arc<Timetable>,
    names: &Arc<Names>,
    disk: MemDisk,
) -> Result<Answer, AllocError> {
    let network = Network::of(alloc, Arc::try_clone(table)?)?;
    let names = Arc::try_clone(names)?;
    match Planner::open(alloc, waits, disk, network, names, Rides::new(3), 1) {
        Ok(
            Opened {
                planner: _planner,
                desk,
                readers: _readers,
            },
        ) => {
            let stored = desk.stored().len();
            let _disk = desk.into_disk(waits);
            Ok(Ok(stored))
        }
        Err(refused) => Ok(Err(refused)),
    }
}

// Opens one over the disk that came back with this fault.
fn opened_again<R: Wait>(
    waits: &R,
    alloc: Global,
    sample: &Sample,
    names: &Arc<Names>,
    file: &[u8],
    refused: (OpenFault, MemDisk),
) -> Result<Seen, Fail> {
    let (fault, mut disk) = refused;
    let Some(fault) = name_of(fault, disk.failures()) else {
        return Ok(Seen::Wrong("another fault of Planner::open"));
    };
    if bytes_of(alloc, &mut disk)?.as_slice() != file {
        return Ok(Seen::Wrong("other bytes"));
    }
    let is_right = match open(waits, alloc, &sample.table, names, disk)? {
        Ok(stored) => stored == 2,
        Err(_) => false,
    };
    Ok(Seen::again(fault, "the same bytes", is_right))
}

// Opens one over a disk with this file.
fn opened_over<R: Wait>(
    waits: &R,
    alloc: Global,
    sample: &Sample,
    names: &Arc<Names>,
    file: &[u8],
) -> Result<Seen, Fail> {
    let mut disk = MemDisk::new(alloc);
    disk.write_at(0, file)?;
    match open(waits, alloc, &sample.table, names, disk)? {
        Ok(stored) => Ok(Seen::right_if(stored == 2, "other trees")),
        Err(refused) => opened_again(waits, alloc, sample, names, file, refused),
    }
}

/// The opening of a planner over the trees of A and B. If memory is refused, one over the disk that comes back must be right.
pub fn opened<R: Wait>(rt: &HostRuntime, waits: &R, sample: &Sample) -> Result<Seen, Fail> {
    let names = sample_names(rt)?;
    let file = file_of(rt.alloc(), &sample.header, &TEXTS[..2])?;
    opened_over(waits, rt.alloc(), sample, &names, &file)
}
