//! Merges that are stopped, each of which is followed by a crash and goes on, and parts whose builds were stopped.

use super::towns::{Town, bytes_of, merged};
use disk_model::MemDisk;
use merging::MergeFault;
use section_store::PutFault;
use std::alloc::Global;
use std::process::Abort;
use std::test::Fail;
use stop_parts::Part;

// What a crash leaves of the disk: the longest file, with this byte wherever any may stand.
fn crashed(disk: MemDisk, byte: u8) -> Result<MemDisk, Fail> {
    let longest = (0..20_000)
        .rev()
        .find(|len| disk.open_bytes(*len).is_some())
        .ok_or("no crash")?;
    match disk.crash(longest, &[byte; 20_000]) {
        Ok(disk) => Ok(disk),
        Err(_) => Err(Fail::new("no such crash")),
    }
}

// Merges two parts into a new file. Its disk stops at the first call, then at the third call of the next run, and so on, until all is
// stored. After each stop comes a crash. It says how often the disk stopped, and what the file has.
fn stops_of(alloc: Global, town: &Town, byte: u8) -> Result<(u32, Vec<u8>), Fail> {
    let mut disk = MemDisk::new(alloc);
    for stops in 0..200_u32 {
        disk.stop_at(u64::from(stops * 2 + 1));
        let left = match merged(alloc, town, town.parts(alloc, 2)?, disk)? {
            Err(left) => left,
            Ok(ended) => match ended.stored {
                Ok(_) => {
                    let mut done = ended.disk;
                    done.fail_at(0);
                    return Ok((stops, bytes_of(alloc, &mut done)?));
                }
                Err(MergeFault::Put(PutFault::Device)) => ended.disk,
                Err(fault) => return Err(Fail::from(fault)),
            },
        };
        disk = crashed(left, byte)?;
    }
    Err(Fail::new("it never ended"))
}

#[test]
fn stopped_ten_times_and_more(rt: HostRuntime) -> Result<(), Fail> {
    let alloc = rt.alloc();
    let town = Town::new(&rt, 1)?;
    let whole = town.whole(alloc)?;
    for byte in [0, 0xA5, 0xFF] {
        let (stops, file) = stops_of(alloc, &town, byte)?;
        assert!(&rt; stops >= 10, "stopped {stops} times");
        assert!(&rt;
            file.as_slice() == whole.as_slice(),
            "stopped {stops} times, byte {byte}"
        );
    }
    Ok(())
}

// The disk of a part whose build was stopped at that call of its disk, after a crash.
fn killed(alloc: Global, town: &Town, part: Part, n: u64, byte: u8) -> Result<MemDisk, Fail> {
    let mut store = town.begun(alloc)?;
    store.fail_at(n);
    for tree in &town.trees {
        if part.has(tree.tree().source().number()) && store.put(tree).is_err() {
            break;
        }
    }
    crashed(store.into_disk(), byte)
}

// Of a part that was killed the stops are there whose trees it has; once it was built to its end, all are.
fn check_killed(rt: &impl Abort, alloc: Global, town: &Town, n: u64, byte: u8) -> Result<(), Fail> {
    let mut parts = town.parts(alloc, 2)?;
    let odd = Part::new(1, 2).ok_or("no such part")?;
    let Some(_) = parts.pop() else {
        return Err(Fail::new("no parts"));
    };
    parts.push(killed(alloc, town, odd, n, byte)?)?;
    let Ok(ended) = merged(alloc, town, parts, MemDisk::new(alloc))? else {
        return Err(Fail::new("a new file wasn't opened"));
    };
    let stored = ended.stored?;
    // A put makes four calls of the disk, of which the third opens its gate.
    let whole = (n.saturating_sub(1) / 4) as usize;
    assert!(rt;
        stored.len() == 6 + whole || stored.len() == 7 + whole,
        "call {n}, byte {byte}"
    );
    assert!(rt; stored.windows(2).all(|pair| pair[0] < pair[1]));
    let Ok(ended) = merged(alloc, town, town.parts(alloc, 2)?, ended.disk)? else {
        return Err(Fail::new("the file wasn't opened"));
    };
    assert!(rt; ended.stored?.len() == 12);
    Ok(())
}

#[test]
fn a_part_was_killed(rt: HostRuntime) -> Result<(), Fail> {
    let town = Town::new(&rt, 2)?;
    for n in 1..=16 {
        for byte in [0, 0xA5] {
            check_killed(&rt, rt.alloc(), &town, n, byte)?;
        }
    }
    Ok(())
}
