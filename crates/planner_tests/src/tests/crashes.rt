//! Every crash of a life: at each call of the disk, of each length, with several fills.

use super::town::{build, bytes_of, is_first, life_of, receipts_of, town_of};
use disk_model::MemDisk;
use planner_life::{End, Life};
use recovery::recover;
use std::alloc::Global;
use std::process::Abort;
use std::sync::Arc;
use std::test::Fail;
use timetable::{Rides, Timetable};

// A crash of a life: at which call of the disk it is stopped, how long a file it leaves, and how many receipts it had given.
#[derive(Clone, Copy)]
struct Crash {
    call: u64,
    len: u64,
    receipts: usize,
}

// A life of all five sources on an empty file, stopped at the n-th call of the disk.
fn life_until(alloc: Global, table: &Arc<Timetable>, n: u64) -> Life<MemDisk> {
    let mut disk = MemDisk::new(alloc);
    disk.stop_at(n);
    let orders = [build(0), build(1), build(2), build(3), build(4)];
    life_of(alloc, table, disk, &orders)
}

// The file that a crash of that life leaves, with these bytes where it leaves them open.
fn left_at(
    alloc: Global,
    table: &Arc<Timetable>,
    crash: &Crash,
    fill: &[u8],
) -> Result<MemDisk, Fail> {
    match life_until(alloc, table, crash.call)
        .disk
        .crash(crash.len, fill)
    {
        Ok(disk) => Ok(disk),
        Err(_) => Err(Fail::new("no such crash")),
    }
}

// Where a crash leaves a byte open, the byte that was being written: what two crashes with unlike bytes there differ in.
fn written_in(alloc: Global, one: &[u8], other: &[u8], target: &[u8]) -> Result<Vec<u8>, Fail> {
    let mut fill = Vec::new(alloc);
    for (place, (a, b)) in one.iter().zip(other).enumerate() {
        if a != b {
            fill.push(target.get(place).copied().unwrap_or(0))?;
        }
    }
    Ok(fill)
}

// A crash of that life, after which the sources with a receipt, or these and one more, are recovered.
fn check_crash(
    rt: &impl Abort,
    alloc: Global,
    table: &Arc<Timetable>,
    crash: &Crash,
    fill: &[u8],
) -> Result<(), Fail> {
    let disk = left_at(alloc, table, crash, fill)?;
    match recover(alloc, disk, table, Rides::new(3)) {
        Ok(found) => {
            let list = found.store.stored();
            let least = crash.receipts;
            assert!(rt; list.len() == least || list.len() == least.saturating_add(1));
            assert!(rt; is_first(list));
            Ok(())
        }
        Err(_) => Err(Fail::new("the file wasn't opened")),
    }
}

// The fills: zeros, ones, open gates, what was being written, and that turned over; if one byte is open, each value.
fn check_length(
    rt: &impl Abort,
    alloc: Global,
    table: &Arc<Timetable>,
    crash: &Crash,
    open: usize,
    target: &[u8],
) -> Result<(), Fail> {
    for byte in [0, 0xFF, 0xA5_u8] {
        let fill = vec![in alloc; byte; open]?;
        check_crash(rt, alloc, table, crash, &fill)?;
    }
    let zeros = bytes_of(
        alloc,
        &mut left_at(alloc, table, crash, &vec![in alloc; 0; open]?)?,
    )?;
    let ones = bytes_of(
        alloc,
        &mut left_at(alloc, table, crash, &vec![in alloc; 0xFF; open]?)?,
    )?;
    let mut fill = written_in(alloc, &zeros, &ones, target)?;
    assert_eq!(rt; fill.len(), open);
    check_crash(rt, alloc, table, crash, &fill)?;
    for byte in fill.iter_mut() {
        *byte = !*byte;
    }
    check_crash(rt, alloc, table, crash, &fill)?;
    if open == 1 {
        for value in 0..=255 {
            check_crash(rt, alloc, table, crash, &[value])?;
        }
    }
    Ok(())
}

// Goes over the lengths that a crash of the life leaves. Says whether the life was stopped.
fn check_stop(
    rt: &impl Abort,
    alloc: Global,
    table: &Arc<Timetable>,
    n: u64,
) -> Result<bool, Fail> {
    let mut further = life_until(alloc, table, n.saturating_add(1));
    further.disk.fail_at(0);
    let target = bytes_of(alloc, &mut further.disk)?;
    let life = life_until(alloc, table, n);
    let receipts = receipts_of(&life);
    for len in 0..400 {
        if let Some(open) = life.disk.open_bytes(len) {
            let crash = Crash {
                call: n,
                len,
                receipts,
            };
            check_length(rt, alloc, table, &crash, open as usize, &target)?;
        }
    }
    Ok(life.end != End::Done)
}

// Stopped at each call of the disk in turn, until none is left to stop at; then all five sources are stored.
#[test]
fn stops(rt: HostRuntime) -> Result<(), Fail> {
    let table = town_of(&rt)?;
    for n in 1..60 {
        if !check_stop(&rt, rt.alloc(), &table, n)? {
            assert_eq!(rt; receipts_of(&life_until(rt.alloc(), &table, n)), 5);
            return Ok(());
        }
    }
    Err(Fail::new("there are more calls"))
}
