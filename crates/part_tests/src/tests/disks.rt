//! What a crash leaves of a disk in memory, and a disk that is a file.

use disk_model::{Disk, FileDisk, MemDisk};
use std::alloc::Global;
use std::fs;
use std::test::Fail;

// A call of a script. Those in the second half are set to fail.
#[derive(Clone, Copy)]
enum Step<'a> {
    Write(u64, &'a [u8]),
    Cut(u64),
    Sync,
    FailWrite(u64, &'a [u8]),
    FailCut(u64),
    FailSync,
}

// Does one step, and says whether it went as the step says. A place past the end is refused.
fn take_step(disk: &mut MemDisk, step: &Step) -> Result<bool, Fail> {
    let end = disk.len()?;
    Ok(match *step {
        Step::Write(pos, bytes) if pos <= end => disk.write_at(pos, bytes).is_ok(),
        Step::Cut(len) if len <= end => disk.cut(len).is_ok(),
        Step::Sync => disk.sync().is_ok(),
        Step::FailWrite(pos, bytes) if pos <= end => {
            disk.fail_at(1);
            disk.write_at(pos, bytes).is_err()
        }
        Step::FailCut(len) if len <= end => {
            disk.fail_at(1);
            disk.cut(len).is_err()
        }
        Step::FailSync => {
            disk.fail_at(1);
            disk.sync().is_err()
        }
        _ => false,
    })
}

fn disk_after(alloc: Global, steps: &[Step]) -> Result<MemDisk, Fail> {
    let mut disk = MemDisk::new(alloc);
    for step in steps {
        if !take_step(&mut disk, step)? {
            return Err(Fail::new("a step that went otherwise"));
        }
    }
    Ok(disk)
}

// Whether the file has these bytes, of which there are at most 15.
fn gives(disk: &mut impl Disk, bytes: &[u8]) -> Result<bool, Fail> {
    let mut buf = [0; 16];
    let count = disk.read_at(0, &mut buf)?;
    Ok(disk.len()? == bytes.len() as u64 && &buf[..count] == bytes)
}

// Whether a crash may leave just the lengths from the least to the greatest, of those below 8.
fn leaves_lengths(disk: &MemDisk, least: u64, greatest: u64) -> bool {
    for len in 0..8 {
        if disk.open_bytes(len).is_some() != (least <= len && len <= greatest) {
            return false;
        }
    }
    true
}

// Whether a crash leaves these bytes by this fill, and nothing of them open.
fn leaves(disk: MemDisk, fill: &[u8], bytes: &[u8]) -> Result<bool, Fail> {
    let len = bytes.len() as u64;
    if disk.open_bytes(len) != Some(fill.len() as u64) {
        return Ok(false);
    }
    match disk.crash(len, fill) {
        Ok(mut left) => Ok(left.open_bytes(len) == Some(0) && gives(&mut left, bytes)?),
        Err(_) => Ok(false),
    }
}

// Steps, the least and the greatest length that a crash leaves after them, and a fill with the bytes that it leaves by that.
type Script<'a> = (&'a [Step<'a>], u64, u64, &'a [u8], &'a [u8]);

const FIRST: Step<'static> = Step::Write(0, &[1, 2, 3]);

const OVER: Step<'static> = Step::Write(1, &[7]);

// A new file; one that was synced; then written over, made longer, made shorter and longer again; and calls that fail.
const SCRIPTS: [Script<'static>; 12] = [
    (&[], 0, 0, &[], &[]),
    (&[FIRST], 0, 3, &[], &[]),
    (&[FIRST], 0, 3, &[8, 9], &[8, 9]),
    (&[FIRST, Step::Sync], 3, 3, &[], &[1, 2, 3]),
    (&[FIRST, Step::Sync, OVER], 3, 3, &[9], &[1, 9, 3]),
    (
        &[FIRST, Step::Sync, Step::Write(3, &[4, 5])],
        3,
        5,
        &[9],
        &[1, 2, 3, 9],
    ),
    (
        &[FIRST, Step::Sync, Step::Cut(1)],
        1,
        3,
        &[8, 9],
        &[1, 8, 9],
    ),
    (
        &[FIRST, Step::Sync, Step::Cut(1), Step::Write(1, &[6, 6])],
        1,
        3,
        &[9],
        &[1, 9],
    ),
    (
        &[FIRST, Step::Sync, Step::FailWrite(0, &[4])],
        3,
        3,
        &[9],
        &[9, 2, 3],
    ),
    (&[FIRST, Step::Sync, Step::FailCut(0)], 0, 3, &[], &[]),
    (
        &[FIRST, Step::Sync, Step::FailCut(0)],
        0,
        3,
        &[7, 8, 9],
        &[7, 8, 9],
    ),
    (
        &[FIRST, Step::Sync, OVER, Step::FailSync],
        3,
        3,
        &[9],
        &[1, 9, 3],
    ),
];

// Whether a crash leaves what the script says.
fn is_right(alloc: Global, script: &Script) -> Result<bool, Fail> {
    let (steps, least, greatest, fill, bytes) = *script;
    let disk = disk_after(alloc, steps)?;
    Ok(leaves_lengths(&disk, least, greatest) && leaves(disk, fill, bytes)?)
}

#[test]
fn what_a_crash_leaves(rt: HostRuntime) -> Result<(), Fail> {
    for (number, script) in SCRIPTS.iter().enumerate() {
        assert!(rt; is_right(rt.alloc(), script)?, "{number}");
    }
    Ok(())
}

// Does the writes, none of them past the end, and syncs.
fn put(disk: &mut FileDisk, writes: &[(u64, &[u8])]) -> Result<(), Fail> {
    for (pos, bytes) in writes {
        let end = disk.len()?;
        if *pos > end {
            return Err(Fail::new("a write past the end"));
        }
        disk.write_at(*pos, bytes)?;
    }
    disk.sync()?;
    Ok(())
}

// Cuts the file to a length, not past the end.
fn shorten(disk: &mut FileDisk, len: u64) -> Result<(), Fail> {
    let end = disk.len()?;
    if len > end {
        return Err(Fail::new("a cut past the end"));
    }
    disk.cut(len)?;
    Ok(())
}

#[test]
fn a_file_as_a_disk(rt: HostRuntime) -> Result<(), Fail> {
    let path = "disk_model_a_file_as_a_disk";
    let _ = fs::remove_file(&rt, path);
    let mut disk = FileDisk::open(&rt, path)?;
    put(&mut disk, &[(0, &[1, 2, 3, 4]), (1, &[7, 8]), (4, &[5])])?;
    assert!(rt; gives(&mut disk, &[1, 7, 8, 4, 5])?);
    shorten(&mut disk, 2)?;
    drop(disk);
    let mut disk = FileDisk::open(&rt, path)?;
    assert!(rt; gives(&mut disk, &[1, 7])? && disk.failures() == 0);
    drop(disk);
    fs::remove_file(&rt, path)?;
    Ok(())
}
