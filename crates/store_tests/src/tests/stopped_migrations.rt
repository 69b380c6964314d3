//! Migrations of the file of five trees to an empty file whose disk is stopped. Each is followed by a crash and run again.

use super::first::{HEADER, TEXTS};
use super::migrations::{disk_of, migrated};
use disk_model::MemDisk;
use migration::MigrateFault::{New, Put};
use sample_store::{A, Sample, bytes_of, file_of};
use section_store::PutFault;
use std::alloc::Global;
use std::process::Abort;
use std::test::Fail;
use store_faults::RecoverFault;

// The new disk of a migration that is stopped at its n-th call; none if there are fewer.
fn stopped(alloc: Global, sample: &Sample, old: &[u8], n: u64) -> Result<Option<MemDisk>, Fail> {
    let mut target = MemDisk::new(alloc);
    target.stop_at(n);
    let ended = migrated(alloc, sample, old, target)?;
    match ended.stored {
        Ok(_) => Ok(None),
        Err(New(RecoverFault::Device) | Put(PutFault::Device)) => Ok(Some(ended.new)),
        Err(_) => Err(Fail::new("another fault")),
    }
}

// How many calls of the new disk a migration makes.
fn calls_of(alloc: Global, sample: &Sample, old: &[u8]) -> Result<u64, Fail> {
    for n in 1..60 {
        if stopped(alloc, sample, old, n)?.is_none() {
            return Ok(n - 1);
        }
    }
    Err(Fail::new("there are more calls"))
}

// The file that a crash leaves, of that length and with this byte wherever any may stand.
fn left(alloc: Global, disk: MemDisk, len: u64, byte: u8) -> Result<Vec<u8>, Fail> {
    match disk.crash(len, &[byte; 400]) {
        Ok(mut disk) => bytes_of(alloc, &mut disk),
        Err(_) => Err(Fail::new("no such crash")),
    }
}

// The file that a migration to this file leaves, which goes to the end.
fn run_again(alloc: Global, sample: &Sample, old: &[u8], left: &[u8]) -> Result<Vec<u8>, Fail> {
    let target = disk_of(alloc, left)?;
    let mut ended = migrated(alloc, sample, old, target)?;
    if ended.stored != Ok(5) {
        return Err(Fail::new("the second run isn't done"));
    }
    bytes_of(alloc, &mut ended.new)
}

// How long the shortest and the longest file is that a crash leaves.
fn lengths_of(disk: &MemDisk) -> Option<(u64, u64)> {
    let mut lengths = None;
    for len in 0..400 {
        if disk.open_bytes(len).is_some() {
            lengths = match lengths {
                None => Some((len, len)),
                Some((shortest, _)) => Some((shortest, len)),
            };
        }
    }
    lengths
}

// What a migration that is stopped at its n-th call leaves: the shortest or the longest file, with this byte wherever any may stand.
fn left_at(
    alloc: Global,
    sample: &Sample,
    old: &[u8],
    n: u64,
    is_longest: bool,
    byte: u8,
) -> Result<Vec<u8>, Fail> {
    let disk = stopped(alloc, sample, old, n)?.ok_or("it wasn't stopped")?;
    let (shortest, longest) = lengths_of(&disk).ok_or("no crash")?;
    left(
        alloc,
        disk,
        if is_longest { longest } else { shortest },
        byte,
    )
}

// Goes over some crashes.
fn check_stop(
    rt: &impl Abort,
    alloc: Global,
    sample: &Sample,
    old: &[u8],
    new: &[u8],
    n: u64,
) -> Result<(), Fail> {
    for byte in [0, 0xFF, 0xA5] {
        for is_longest in [false, true] {
            let file = left_at(alloc, sample, old, n, is_longest, byte)?;
            let again = run_again(alloc, sample, old, &file)?;
            assert!(rt; again.as_slice() == new, "call {n}, byte {byte}");
        }
    }
    Ok(())
}

// Goes over the calls of the new disk.
fn check_stops(rt: &impl Abort, alloc: Global, sample: &Sample) -> Result<(), Fail> {
    let old = file_of(alloc, HEADER, &TEXTS)?;
    let new = file_of(alloc, &sample.header, &sample_store::TEXTS)?;
    for n in 1..=calls_of(alloc, sample, &old)? {
        check_stop(rt, alloc, sample, &old, &new, n)?;
    }
    Ok(())
}

#[test]
fn each_stop(rt: HostRuntime) -> Result<(), Fail> {
    let sample = Sample::new(&rt)?;
    check_stops(&rt, rt.alloc(), &sample)
}

// A put makes four calls of the disk, of which the third writes its gate. The put of B is the second of the five that come last.
fn check_gate(rt: &impl Abort, alloc: Global, sample: &Sample) -> Result<(), Fail> {
    let old = file_of(alloc, HEADER, &TEXTS)?;
    let calls = calls_of(alloc, sample, &old)?;
    let gate = calls.checked_sub(13).ok_or("too few calls")?;
    let disk = stopped(alloc, sample, &old, gate)?.ok_or("it wasn't stopped")?;
    assert!(rt; disk.open_bytes(329) == Some(1));
    let file = left(alloc, disk, 329, 0)?;
    assert!(rt; file.starts_with(&file_of(alloc, &sample.header, &[A])?));
    let again = run_again(alloc, sample, &old, &file)?;
    assert!(rt;
        again.as_slice() == file_of(alloc, &sample.header, &sample_store::TEXTS)?.as_slice()
    );
    Ok(())
}

#[test]
fn stopped_within_the_gate_of_b(rt: HostRuntime) -> Result<(), Fail> {
    let sample = Sample::new(&rt)?;
    check_gate(&rt, rt.alloc(), &sample)
}
