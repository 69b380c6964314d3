//! A file of 300 bytes whose first is a closed gate.

ghost use Rattle.std.specs.Prelude.{IfOk};
ghost use Rattle.std.specs.Arc.{arc_value};
ghost use Rattle.disk_model.specs.MemDisk.{state_of};
ghost use Rattle.section_store.specs.Lasting.{IsTrusted};
ghost use Rattle.section_store.specs.Sections.{form_of};

use super::events::{Event, Wanted, are_wanted, replies_to, steps_of};
use disk_model::MemDisk;
use disk_model::laws::leaves_the_reads;
use recovery::recover;
use sample_store::{Sample, old_file};
use section_store::laws::trust_lasts;
use std::alloc::Global;
use std::process::Abort;
use std::sync::Arc;
use std::test::Fail;
use store_faults::RecoverFault;
use timetable::{Rides, Timetable};

// No tree is stored, and the file has only a header and a closed gate.
const FRESH: [(Event, Wanted); 4] = [
    (Event::Ask(0, 3, 28_800), Wanted::NotStored),
    (Event::Crash(174, &[]), Wanted::Idle),
    (Event::Crash(175, &[]), Wanted::Crashed),
    (Event::Restart, Wanted::Restarted(&[])),
];

// What a crash leaves of the file, of that length, in the midst of its cut: the fifth call of the disk when it is recovered.
fn cut_off(alloc: Global, table: &Arc<Timetable>, len: u64) -> Result<MemDisk, Fail>
    ensures { IfOk result (λ disk. IsTrusted (form_of (arc_value table.now) 3) (state_of disk)) }
{
    leaves_the_reads();
    trust_lasts();
    let mut disk = old_file(alloc)?;
    disk.stop_at(5);
    match recover(alloc, disk, table, Rides::new(3)) {
        Err((RecoverFault::Device, disk)) => match disk.crash(len, &[0xA5; 299]) {
            Ok(disk) => Ok(disk),
            Err(_) => Err(Fail::new("no such crash")),
        },
        _ => Err(Fail::new("the disk didn't fail")),
    }
}

// Goes over the lengths.
fn check_lengths(rt: &impl Abort, alloc: Global, sample: &Sample) -> Result<(), Fail> {
    let steps = steps_of(alloc, sample, &FRESH)?;
    let replies = replies_to(alloc, &sample.table, old_file(alloc)?, &steps)?;
    assert!(rt; are_wanted(&replies, &FRESH));
    for len in 1..=300 {
        let disk = cut_off(alloc, &sample.table, len)?;
        let replies = replies_to(alloc, &sample.table, disk, &steps)?;
        assert!(rt; are_wanted(&replies, &FRESH), "{len} bytes");
    }
    Ok(())
}

#[test]
fn an_old_file_is_fresh(rt: HostRuntime) -> Result<(), Fail> {
    let sample = Sample::new(&rt)?;
    check_lengths(&rt, rt.alloc(), &sample)
}
