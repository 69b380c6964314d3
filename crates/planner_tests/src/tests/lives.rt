//! Several lives of one file.

use super::town::{build, bytes_of, is_front, life_of, receipts_of, town_of};
use disk_model::{Disk, MemDisk};
use planner_life::{End, Life, Order, Reply};
use section_store::PutFault;
use std::alloc::Global;
use std::sync::Arc;
use std::test::Fail;
use timetable::Timetable;

// A life that is stopped at the n-th call of its disk, counted from 1.
fn stopped_life(
    alloc: Global,
    table: &Arc<Timetable>,
    disk: MemDisk,
    orders: &[Order],
    n: u64,
) -> Life<MemDisk> {
    let mut disk = disk;
    disk.stop_at(n);
    life_of(alloc, table, disk, orders)
}

// A crash leaves `len` bytes, and these where it leaves them open.
fn crashed(disk: MemDisk, len: u64, fill: &[u8]) -> Result<MemDisk, Fail> {
    match disk.crash(len, fill) {
        Ok(disk) => Ok(disk),
        Err(_) => Err(Fail::new("no such crash")),
    }
}

// Whether the life ended with the device's fault at the last of its orders.
fn is_cut_off(life: &Life<MemDisk>, orders: usize) -> bool {
    let failed = matches!(life.replies.last(), Some(Reply::NotPut(PutFault::Device)));
    failed && life.replies.len() == orders && life.end == End::Device
}

// A is stored, and the life ends within the write of B's gate, the third call of B's put. The gate is left open.
fn first_life(alloc: Global, table: &Arc<Timetable>) -> Result<MemDisk, Fail> {
    let orders = [build(0), build(1)];
    for n in 1..40 {
        let life = stopped_life(alloc, table, MemDisk::new(alloc), &orders, n);
        if is_cut_off(&life, 2) {
            let life = stopped_life(alloc, table, MemDisk::new(alloc), &orders, n + 2);
            if is_cut_off(&life, 2) && is_front(&life, 0) && receipts_of(&life) == 1 {
                return crashed(life.disk, 329, &[0xA5]);
            }
        }
    }
    Err(Fail::new("the first life isn't cut off"))
}

// A and B are recovered, and the life ends within the write of C's section, the first call of C's put. The file is left at 336
// bytes.
fn second_life(alloc: Global, table: &Arc<Timetable>) -> Result<MemDisk, Fail> {
    for n in 1..40 {
        let disk = first_life(alloc, table)?;
        let life = stopped_life(alloc, table, disk, &[build(2)], n);
        if is_cut_off(&life, 1) && is_front(&life, 2) {
            return crashed(life.disk, 336, &[0xA5; 7]);
        }
    }
    Err(Fail::new("the second life isn't cut off"))
}

// A and B are recovered once more, and C is stored. The file has 342 bytes then, and holds A, B and C.
#[test]
fn three_lives(rt: HostRuntime) -> Result<(), Fail> {
    let alloc = rt.alloc();
    let table = town_of(&rt)?;
    let disk = second_life(alloc, &table)?;
    let mut third = life_of(alloc, &table, disk, &[build(2)]);
    assert!(rt; is_front(&third, 2));
    assert_eq!(rt; third.end, End::Done);
    assert_eq!(rt; receipts_of(&third), 1);
    assert_eq!(rt; bytes_of(alloc, &mut third.disk)?.len(), 342);
    let last = life_of(alloc, &table, third.disk, &[]);
    assert!(rt; is_front(&last, 3));
    assert_eq!(rt; last.end, End::Done);
    Ok(())
}

// A file of 300 bytes, none of them a store's, whose first is a closed gate.
fn old_file(alloc: Global) -> Result<MemDisk, Fail> {
    let mut disk = MemDisk::new(alloc);
    disk.write_at(0, &[0])?;
    disk.write_at(1, &[7; 299])?;
    Ok(disk)
}

// A store is begun in its place. With A and B it has 329 bytes.
#[test]
fn a_life_of_an_old_file(rt: HostRuntime) -> Result<(), Fail> {
    let alloc = rt.alloc();
    let table = town_of(&rt)?;
    let mut life = life_of(alloc, &table, old_file(alloc)?, &[build(0), build(1)]);
    assert!(rt; is_front(&life, 0) && life.end == End::Done);
    assert_eq!(rt; receipts_of(&life), 2);
    assert_eq!(rt; bytes_of(alloc, &mut life.disk)?.len(), 329);
    Ok(())
}
