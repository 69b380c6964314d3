//! Files of which only some stops' trees are wanted.

use super::opening::Opening;
use disk_model::{Disk, MemDisk};
use pattern_tree::PatternTree;
use recovery::{Recovered, recover_trees_of};
use sample_feed::demo;
use sample_store::{B, D, E, file_of};
use std::alloc::Global;
use std::test::Fail;
use store_faults::RecoverFault;
use timetable::{Rides, StopId};

// The text of B's tree with a byte after it.
const LONGER: &[u8] = b"\x00\x00\x00\x01\x00\x00\x00\x00\x00";

// What comes of opening the file of these texts for the trees of these stops.
fn excerpt(
    alloc: Global,
    own: &Opening,
    texts: &[&[u8]],
    stops: &[StopId],
) -> Result<Result<Recovered<MemDisk>, (RecoverFault, MemDisk)>, Fail> {
    let file = file_of(alloc, &own.header, texts)?;
    let mut disk = MemDisk::new(alloc);
    disk.write_at(0, &file)?;
    Ok(recover_trees_of(alloc, disk, &own.table, own.rides, stops))
}

// Whether these are the trees of B and D, in this order.
fn are_of_b_and_d(trees: &[PatternTree]) -> bool {
    let first = trees.first().map(|tree| tree.source());
    let last = trees.last().map(|tree| tree.source());
    trees.len() == 2 && first == Some(StopId::new(1)) && last == Some(StopId::new(3))
}

// The stops are given in another order than the file's, and one of them isn't stored.
#[test]
fn kept_in_storing_order(rt: HostRuntime) -> Result<(), Fail> {
    let alloc = rt.alloc();
    let own = Opening::new(alloc, demo(&rt)?, Rides::new(3))?;
    let stops = [StopId::new(3), StopId::new(0), StopId::new(1)];
    let Ok(Recovered { store, trees }) = excerpt(alloc, &own, &[E, B, D], &stops)? else {
        return Err(Fail::new("the file wasn't opened"));
    };
    assert!(rt; are_of_b_and_d(&trees));
    assert!(rt; store.stored() == [StopId::new(4), StopId::new(1), StopId::new(3)].as_slice());
    Ok(())
}

#[test]
fn others_are_tested_too(rt: HostRuntime) -> Result<(), Fail> {
    let alloc = rt.alloc();
    let own = Opening::new(alloc, demo(&rt)?, Rides::new(3))?;
    let Err((fault, _)) = excerpt(alloc, &own, &[E, LONGER, D], &[StopId::new(4)])? else {
        return Err(Fail::new("a damaged file was opened"));
    };
    assert_eq!(rt; fault, RecoverFault::Damaged(1));
    Ok(())
}
