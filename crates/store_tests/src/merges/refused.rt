//! Parts that are refused, and one that has no trees.

use super::towns::{Town, bytes_of};
use disk_model::{Disk, MemDisk};
use part_shelf::PartFault;
use part_shelf::PartFault::{OtherTree, Store};
use section_store::begin;
use std::alloc::Global;
use std::process::Abort;
use std::test::Fail;
use stop_parts::Part;
use store_faults::RecoverFault::{Damaged, NotAStore, OtherRides, OtherTimetable};
use timetable::{Rides, StopId};

// A disk with these bytes, which are synced.
fn disk_of(alloc: Global, bytes: &[u8]) -> Result<MemDisk, Fail> {
    let mut disk = MemDisk::new(alloc);
    disk.write_at(0, bytes)?;
    disk.sync()?;
    Ok(disk)
}

// What comes of a part that is added after the even one, whose file is the same then.
fn added(
    rt: &impl Abort,
    alloc: Global,
    town: &Town,
    file: &[u8],
) -> Result<Result<(), PartFault>, Fail> {
    let even = Part::new(0, 2).ok_or("no such part")?;
    let mut parts = Vec::new(alloc);
    parts.push(town.part(alloc, even)?)?;
    let mut shelf = town.shelf(alloc, parts)?;
    match shelf.add(disk_of(alloc, file)?) {
        Ok(()) => {
            let mut disks = shelf.into_disks();
            let Some(mut disk) = disks.pop() else {
                return Err(Fail::new("no disks"));
            };
            assert!(rt; bytes_of(alloc, &mut disk)?.as_slice() == file);
            Ok(Ok(()))
        }
        Err((fault, disk)) => {
            let mut disk = disk;
            assert!(rt; bytes_of(alloc, &mut disk)?.as_slice() == file);
            Ok(Err(fault))
        }
    }
}

// The file of a store without trees.
fn begun(alloc: Global, town: &Town, rides: Rides) -> Result<Vec<u8>, Fail> {
    match begin(alloc, MemDisk::new(alloc), &town.table, rides) {
        Ok(store) => bytes_of(alloc, &mut store.into_disk()),
        Err(_) => Err(Fail::new("a store wasn't begun")),
    }
}

// A store's file with a tree without patterns of that stop.
fn with_bare_tree(alloc: Global, town: &Town, stop: u8) -> Result<Vec<u8>, Fail> {
    let mut file = begun(alloc, town, Rides::new(2))?;
    file.pop();
    file.extend_from_slice(&[0xA5, 0, 0, 0, 8, 0, 0, 0, stop, 0, 0, 0, 0, 0])?;
    Ok(file)
}

#[test]
fn refused_parts(rt: HostRuntime) -> Result<(), Fail> {
    let alloc = rt.alloc();
    let town = Town::new(&rt, 1)?;
    let other = Town::new(&rt, 2)?;
    let bare = begun(alloc, &town, Rides::new(2))?;
    let of_rides = begun(alloc, &town, Rides::new(3))?;
    let of_other = begun(alloc, &other, Rides::new(2))?;
    let new_tree = with_bare_tree(alloc, &town, 1)?;
    let other_tree = with_bare_tree(alloc, &town, 4)?;
    let cases: [(&[u8], Result<(), PartFault>); 9] = [
        (&[], Ok(())),
        (&[0], Ok(())),
        (&bare, Ok(())),
        (&of_rides, Err(Store(OtherRides))),
        (&of_other, Err(Store(OtherTimetable))),
        (b"\xA5 text, and no store", Err(Store(NotAStore))),
        (
            &bare[..bare.len().saturating_sub(1)],
            Err(Store(Damaged(0))),
        ),
        (&new_tree, Ok(())),
        (
            &other_tree,
            Err(OtherTree {
                stop: StopId::new(4),
                part: 0,
            }),
        ),
    ];
    for (file, expected) in &cases {
        assert!(&rt; added(&rt, alloc, &town, file)? == *expected);
    }
    Ok(())
}
