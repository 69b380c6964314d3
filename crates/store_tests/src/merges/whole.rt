//! Parts that are put together in any order.

use super::towns::{Heard, Town, bytes_of, merged};
use disk_model::MemDisk;
use std::alloc::Global;
use std::process::Abort;
use std::test::Fail;
use stop_parts::Part;

// The parts, from one of them on, and then those before it; or all of them the other way round.
fn turned(
    alloc: Global,
    parts: Vec<MemDisk>,
    first: usize,
    is_back: bool,
) -> Result<Vec<MemDisk>, Fail> {
    let mut rest = Vec::new(alloc);
    let mut turned = Vec::new(alloc);
    for (index, disk) in parts.into_iter().enumerate() {
        if index < first {
            rest.push(disk)?;
        } else {
            turned.push(disk)?;
        }
    }
    for disk in rest {
        turned.push(disk)?;
    }
    if is_back {
        turned.reverse();
    }
    Ok(turned)
}

// Merges a town's parts in many orders.
fn check_orders(rt: &impl Abort, alloc: Global, town: &Town, count: u32) -> Result<(), Fail> {
    let whole = town.whole(alloc)?;
    for first in 0..count as usize {
        for is_back in [false, true] {
            let parts = turned(alloc, town.parts(alloc, count)?, first, is_back)?;
            let Ok(mut ended) = merged(alloc, town, parts, MemDisk::new(alloc))? else {
                return Err(Fail::new("a new file wasn't opened"));
            };
            assert!(rt;
                bytes_of(alloc, &mut ended.disk)?.as_slice() == whole.as_slice(),
                "{count} parts, from {first} on"
            );
            assert!(rt; ended.heard == Heard { last: 12, of: 12 });
        }
    }
    Ok(())
}

#[test]
fn any_order(rt: HostRuntime) -> Result<(), Fail> {
    for seed in [1, 2] {
        let town = Town::new(&rt, seed)?;
        for count in [1, 2, 7] {
            check_orders(&rt, rt.alloc(), &town, count)?;
        }
    }
    Ok(())
}

// A part that is missing is reported by the stops that lack, and once it is there, it goes on with them.
fn check_missing(rt: &impl Abort, alloc: Global, town: &Town) -> Result<(), Fail> {
    let mut parts = town.parts(alloc, 3)?;
    let Some(last) = parts.pop() else {
        return Err(Fail::new("no parts"));
    };
    let Ok(ended) = merged(alloc, town, parts, MemDisk::new(alloc))? else {
        return Err(Fail::new("a new file wasn't opened"));
    };
    assert!(rt; ended.stored?.as_slice() == [0, 1, 3, 4, 6, 7, 9, 10].as_slice());
    let mut one = Vec::new(alloc);
    one.push(last)?;
    let Ok(ended) = merged(alloc, town, one, ended.disk)? else {
        return Err(Fail::new("the file wasn't opened"));
    };
    assert!(rt; ended.stored?.as_slice() == [0, 1, 3, 4, 6, 7, 9, 10, 2, 5, 8, 11].as_slice());
    Ok(())
}

#[test]
fn a_part_is_missing(rt: HostRuntime) -> Result<(), Fail> {
    let town = Town::new(&rt, 1)?;
    check_missing(&rt, rt.alloc(), &town)
}

// The same tree in two parts is taken once.
#[test]
fn parts_that_have_the_same(rt: HostRuntime) -> Result<(), Fail> {
    let alloc = rt.alloc();
    let town = Town::new(&rt, 2)?;
    let mut parts = town.parts(alloc, 2)?;
    parts.push(town.part(alloc, Part::whole())?)?;
    let Ok(mut ended) = merged(alloc, &town, parts, MemDisk::new(alloc))? else {
        return Err(Fail::new("a new file wasn't opened"));
    };
    let whole = town.whole(alloc)?;
    assert!(&rt; bytes_of(alloc, &mut ended.disk)?.as_slice() == whole.as_slice());
    Ok(())
}
