//! Stores of the sample feed's trees, in memory.

ghost use Rattle.std.specs.Prelude.{◌≡◌, ◌<◌, IfOk};
ghost use Rattle.std.specs.Arc.{arc_value};
ghost use Rattle.timetable.specs.Table.{stops_of};
ghost use Rattle.disk_model.specs.MemDisk.{state_of};
ghost use Rattle.section_store.specs.Lasting.{IsTrusted};
ghost use Rattle.section_store.specs.Sections.{Form};
ghost use Rattle.section_store.specs.Store.{IsFreshRest};

use crate::layout::header_of;
use disk_model::laws::leaves_the_reads;
use disk_model::{Disk, MemDisk, read_up_to};
use pattern_building::finish;
use pattern_tree::{Arena, Finished};
use rounds::Scratch;
use sample_feed::demo;
use section_store::laws::fresh_is_trusted;
use section_store::{SectionStore, begin};
use std::alloc::Global;
use std::sync::Arc;
use std::test::Fail;
use timetable::{Rides, StopId, Timetable};

/// The sample feed's timetable, the trees of its five stops for journeys of at most three rides, and the header of their file.
#[derive(Drop)]
pub struct Sample {
    pub table: Arc<Timetable>,
    pub trees: Vec<Finished>,
    pub header: Vec<u8>,
}

/// The tree of a stop of the sample feed.
pub fn tree_of(
    alloc: Global,
    table: &Arc<Timetable>,
    source: u32,
    k: Rides,
) -> Result<Finished, Fail>
    requires stops { stops_of (arc_value table.now) ≡ 5 }
    requires source { source < 5 }
{
    let mut scratch = Scratch::new(alloc, table, k)?;
    let mut arena = Arena::new(alloc)?;
    Ok(finish(
        alloc,
        table,
        StopId::new(source),
        k,
        &mut scratch,
        &mut arena,
    )?)
}

impl Sample {
    /// For journeys of at most three rides.
    pub fn new(rt: &HostRuntime) -> Result<Self, Fail>
        ensures { IfOk result (λ sample. stops_of (arc_value sample.table) ≡ 5) }
    {
        let alloc = rt.alloc();
        let table = Arc::new(alloc, demo(rt)?)?;
        let mut trees = Vec::new(alloc);
        for source in 0..5 {
            trees.push(tree_of(alloc, &table, source, Rides::new(3))?)?;
        }
        let header = header_of(alloc, &table, 3)?;
        Ok(Sample {
            table,
            trees,
            header,
        })
    }
}

/// An empty file.
pub fn new_file(alloc: Global) -> MemDisk
    ensures { IsFreshRest (state_of result) }
{
    MemDisk::new(alloc)
}

/// A file of 300 bytes, none of them a store's, whose first is a closed gate.
pub fn old_file(alloc: Global) -> Result<MemDisk, Fail>
    ensures fresh { IfOk result (λ disk. IsFreshRest (state_of disk)) }
    ensures trusted { IfOk result (λ disk. (form : Form) → IsTrusted form (state_of disk)) }
{
    leaves_the_reads();
    fresh_is_trusted();
    let mut disk = MemDisk::new(alloc);
    disk.write_at(0, &[0])?;
    disk.write_at(1, &[7; 299])?;
    disk.sync()?;
    Ok(disk)
}

/// A store that was begun in an empty file.
pub fn new_store(alloc: Global, sample: &Sample) -> Result<SectionStore<MemDisk>, Fail> {
    match begin(alloc, new_file(alloc), &sample.table, Rides::new(3)) {
        Ok(store) => Ok(store),
        Err(_) => Err(Fail::new("the store wasn't begun")),
    }
}

/// All bytes of a file.
pub fn bytes_of(alloc: Global, disk: &mut MemDisk) -> Result<Vec<u8>, Fail> {
    let mut bytes = Vec::new(alloc);
    read_up_to(disk, 0, 1_000, &mut bytes)?;
    Ok(bytes)
}

/// Whether these are the first stops, in their order.
pub fn is_first(list: &[StopId]) -> bool {
    list.iter()
        .enumerate()
        .all(|(index, stop)| stop.number() == index)
}
