//! Every crash of a store that is begun and put to: at each call of the disk, of each length, with several fills.

ghost use Rattle.std.specs.Prelude.{IfOk};
ghost use Rattle.disk_model.specs.MemDisk.{state_of};
ghost use Rattle.section_store.specs.Store.{IsFreshRest};

use super::layout::list_in;
use disk_model::MemDisk;
use sample_store::{Sample, bytes_of, new_file, old_file};
use section_store::{PutFault, begin};
use std::alloc::Global;
use std::test::Fail;
use timetable::Rides;

// When the calls of the disk fail, counted from 1: only one, or that and all later ones.
#[derive(Clone, Copy)]
enum Failing {
    Once(u64),
    Since(u64),
}

// What the file holds before the store is begun.
#[derive(Clone, Copy)]
enum Before {
    Nothing,
    ClosedGate,
}

// A file that was begun and put to, and how many puts were answered by a receipt.
#[derive(Drop)]
struct Ended {
    disk: MemDisk,
    receipts: usize,
}

// The file before the store is begun, set to fail as `failing` says.
fn file_before(alloc: Global, before: Before, failing: Failing) -> Result<MemDisk, Fail>
    ensures { IfOk result (λ disk. IsFreshRest (state_of disk)) }
{
    let mut disk = match before {
        Before::Nothing => new_file(alloc),
        Before::ClosedGate => old_file(alloc)?,
    };
    match failing {
        Failing::Once(n) => disk.fail_at(n),
        Failing::Since(n) => disk.stop_at(n),
    }
    Ok(disk)
}

// Begins a store and puts each tree. After a fault of the disk each further put must be refused for it.
fn run(alloc: Global, sample: &Sample, before: Before, failing: Failing) -> Result<Ended, Fail> {
    let disk = file_before(alloc, before, failing)?;
    let mut store = match begin(alloc, disk, &sample.table, Rides::new(3)) {
        Ok(store) => store,
        Err((PutFault::Device, disk)) => return Ok(Ended { disk, receipts: 0 }),
        Err(_) => return Err(Fail::new("begin was refused")),
    };
    let mut receipts = 0;
    let mut wanted = PutFault::Device;
    for tree in &sample.trees {
        match store.put(tree) {
            Ok(receipt) if receipt.number() == receipts && wanted == PutFault::Device => receipts +=
                1,
            Err(fault) if fault == wanted => wanted = PutFault::Failed,
            _ => return Err(Fail::new("another answer")),
        }
    }
    Ok(Ended {
        disk: store.into_disk(),
        receipts,
    })
}

// A moment at which a crash comes: the calls that fail up to then, and what the file held before the store was begun.
#[derive(Clone, Copy)]
struct Moment {
    before: Before,
    failing: Failing,
}

// The bytes that a crash at that moment leaves, of this length and with this byte wherever it leaves any.
fn left_at(
    alloc: Global,
    sample: &Sample,
    moment: Moment,
    len: u64,
    byte: u8,
) -> Result<Vec<u8>, Fail> {
    let ended = run(alloc, sample, moment.before, moment.failing)?;
    match ended.disk.crash(len, &[byte; 400]) {
        Ok(mut disk) => bytes_of(alloc, &mut disk),
        Err(_) => Err(Fail::new("no such crash")),
    }
}

// Whether the bytes stand for the trees with a receipt, or for one more.
fn is_right(sample: &Sample, receipts: usize, bytes: &[u8]) -> bool {
    match list_in(bytes, &sample.header) {
        Some(count) => count == receipts || count.checked_sub(1) == Some(receipts),
        None => false,
    }
}

// Goes over bytes that a crash of this length leaves: each value if one byte is left open, and else some of them.
fn check_length(
    alloc: Global,
    sample: &Sample,
    moment: Moment,
    len: u64,
    open: u64,
    receipts: usize,
) -> Result<(), Fail> {
    for byte in 0..=255_u8 {
        if open == 1 || byte % 255 == 0 || byte == 0xA5 {
            let bytes = left_at(alloc, sample, moment, len, byte)?;
            if !is_right(sample, receipts, &bytes) {
                return Err(Fail::new("a crash that leaves another list"));
            }
        }
    }
    Ok(())
}

// Goes over the lengths that a crash may leave, and over what reads give. Says how many puts had a receipt.
fn check_moment(alloc: Global, sample: &Sample, moment: Moment) -> Result<usize, Fail> {
    let mut ended = run(alloc, sample, moment.before, moment.failing)?;
    for len in 0..400 {
        if let Some(open) = ended.disk.open_bytes(len) {
            check_length(alloc, sample, moment, len, open, ended.receipts)?;
        }
    }
    ended.disk.fail_at(0);
    let bytes = bytes_of(alloc, &mut ended.disk)?;
    if is_right(sample, ended.receipts, &bytes) {
        Ok(ended.receipts)
    } else {
        Err(Fail::new("reads that give another list"))
    }
}

// Goes over the calls of the disk. Each fails, once only it and once it and all later ones. Says how many calls there are.
fn count_calls(alloc: Global, sample: &Sample, before: Before) -> Result<u64, Fail> {
    for n in 1..40 {
        let mut receipts = 0;
        for failing in [Failing::Once(n), Failing::Since(n)] {
            receipts = check_moment(alloc, sample, Moment { before, failing })?;
        }
        if receipts == 5 {
            return Ok(n - 1);
        }
    }
    Err(Fail::new("there are more calls"))
}

// To begin a store takes 7 calls of the disk, and each put 4. A file that has more than one byte is cut and synced first.
#[test]
fn crashes_at_each_call(rt: HostRuntime) -> Result<(), Fail> {
    let sample = Sample::new(&rt)?;
    for (before, calls) in [(Before::Nothing, 27), (Before::ClosedGate, 29)] {
        assert_eq!(rt; count_calls(rt.alloc(), &sample, before)?, calls);
    }
    Ok(())
}
