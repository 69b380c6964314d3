//! A store of trees: its opening, beside a plain read of its file, and puts to it, beside the calls of the disk that they make.

ghost use Rattle.std.specs.Prelude.{◌≡◌, ◌≤◌, length};
ghost use Rattle.std.specs.Arc.{arc_value};
ghost use Rattle.rounds.specs.Scratch.{IsMadeFor, rides_of};

use crate::clock::{now, tell};
use disk_model::{Disk, DiskFault, FileDisk, FileFault, write_and_sync};
use faults::Fault;
use pattern_building::finish;
use pattern_tree::{Arena, Finished};
use recovery::{Recovered, recover};
use rounds::{Rides, Scratch};
use section_store::{PutFault, SectionStore};
use std::alloc::{AllocError, Global};
use std::sync::Arc;
use store_faults::RecoverFault;
use timetable::{StopId, Timetable};
use tree_codec::encode;

// How many bytes a plain read takes at once.
const PIECE: usize = 65_536;

// The disk of a file.
fn open_disk(rt: &HostRuntime, path: &str) -> Result<FileDisk, Fault<'static>> {
    match FileDisk::open(rt, path) {
        Ok(disk) => Ok(disk),
        Err(FileFault::InUse) => Err(Fault::StoreInUse),
        Err(FileFault::Failed) => Err(Fault::Store(RecoverFault::Device)),
    }
}

// Reads a file from its first byte to its last. Gives how many there are.
fn read_through(disk: &mut FileDisk, piece: &mut [u8]) -> Result<u64, DiskFault> {
    let mut bytes: u64 = 0;
    for _ in 0..u64::MAX {
        match disk.read_at(bytes, piece)? {
            0 => break,
            count => bytes = bytes.saturating_add(count as u64),
        }
    }
    Ok(bytes)
}

// Measures a plain read of the file.
fn measure_reading(rt: &HostRuntime, disk: &mut FileDisk) -> Result<(), Fault<'static>> {
    let mut piece = vec![in rt.alloc(); 0; PIECE]?;
    let start = now(rt);
    match read_through(disk, &mut piece) {
        Ok(bytes) => {
            tell(rt, "read_file", bytes, start);
            Ok(())
        }
        Err(_) => Err(Fault::Store(RecoverFault::Device)),
    }
}

// Measures the opening of the store, which begins one in a file that is fresh.
fn measure_opening(
    rt: &HostRuntime,
    disk: FileDisk,
    table: &Arc<Timetable>,
    rides: Rides,
) -> Result<SectionStore<FileDisk>, Fault<'static>> {
    let start = now(rt);
    match recover(rt.alloc(), disk, table, rides) {
        Ok(Recovered { store, trees }) => {
            tell(rt, "recover", trees.len() as u64, start);
            Ok(store)
        }
        Err((fault, _disk)) => Err(Fault::Store(fault)),
    }
}

// The trees of the first sources.
fn trees_of(
    alloc: Global,
    table: &Arc<Timetable>,
    rides: Rides,
    sources: u32,
) -> Result<Vec<Finished>, Fault<'static>> {
    let mut scratch = Scratch::new(alloc, table, rides)?;
    let mut arena = Arena::new(alloc)?;
    let mut trees = Vec::new(alloc);
    let sources = table.stops().min(sources as usize);
    for number in 0..sources {
        let source = StopId::new(number as u32);
        let tree = finish(alloc, table, source, rides, &mut scratch, &mut arena)?;
        trees.push(tree).map_err(AllocError::from)?;
    }
    Ok(trees)
}

// Measures the puts of the trees. One that the store has is refused.
fn measure_puts(
    rt: &HostRuntime,
    store: &mut SectionStore<FileDisk>,
    trees: &[Finished],
) -> Result<(), Fault<'static>> {
    let before = store.stored().len();
    let start = now(rt);
    for tree in trees {
        match store.put(tree) {
            Ok(_) | Err(PutFault::AlreadyStored) => {}
            Err(_) => return Err(Fault::PutFailed),
        }
    }
    let puts = store.stored().len().saturating_sub(before);
    tell(rt, "put", puts as u64, start);
    Ok(())
}

// A piece is written at the end, and synced; a byte is written over in it, and synced.
fn write_piece<D: Disk>(disk: &mut D, end: u64, piece: &[u8]) -> Result<(), DiskFault>
    requires { D.honest disk.old → end ≤ length (D.state disk.old).read }
{
    write_and_sync(disk, end, piece)?;
    write_and_sync(disk, end, &[0xA5])
}

// Makes the calls of the disk that the puts of the trees make, at the end of the file, after its last gate.
fn measure_calls(
    rt: &HostRuntime,
    disk: &mut FileDisk,
    trees: &[Finished],
) -> Result<(), Fault<'static>> {
    let mut piece = Vec::new(rt.alloc());
    let start = now(rt);
    for tree in trees {
        piece.clear();
        encode(tree.tree(), &mut piece)?;
        let Ok(end) = disk.len() else {
            return Err(Fault::PutFailed);
        };
        if write_piece(disk, end, &piece).is_err() {
            return Err(Fault::PutFailed);
        }
    }
    tell(rt, "calls", trees.len() as u64, start);
    Ok(())
}

// Compares each tree's timetable with another value of it.
fn measure_sameness(rt: &HostRuntime, table: &Timetable, rides: Rides, trees: &[Finished]) {
    let start = now(rt);
    let ours = trees
        .iter()
        .filter(|tree| tree.is_for(table, rides))
        .count();
    tell(rt, "is_for", ours as u64, start);
}

/// Measures the store in a file, for this timetable and at most `rides` rides: how it is read and opened, and how trees are put to it.
/// These are the trees of the first sources that it doesn't have.
pub fn measure_store(
    rt: &HostRuntime,
    table: &Arc<Timetable>,
    rides: Rides,
    sources: u32,
    path: &str,
) -> Result<(), Fault<'static>> {
    let mut disk = open_disk(rt, path)?;
    measure_reading(rt, &mut disk)?;
    let mut store = measure_opening(rt, disk, table, rides)?;
    let trees = trees_of(rt.alloc(), table, rides, sources)?;
    measure_puts(rt, &mut store, &trees)?;
    let mut disk = store.into_disk();
    measure_calls(rt, &mut disk, &trees)?;
    measure_sameness(rt, table, rides, &trees);
    Ok(())
}
