//! Towns whose trees are stored in parts.

ghost use Rattle.std.specs.Prelude.{◌≡◌, IfOk};
ghost use Rattle.std.specs.Arc.{arc_value};
ghost use Rattle.part_shelf.specs.Shelves.{form_for};
ghost use Rattle.section_store.specs.Sections.{form_of};
ghost use Rattle.timetable.specs.Table.{stops_of};

use disk_model::{MemDisk, read_up_to};
use merging::{MergeFault, merge};
use part_shelf::PartShelf;
use pattern_building::finish;
use pattern_tree::{Arena, Finished};
use progress::{Done, Progress};
use recovery::{Nobody, recover_to};
use rounds::Scratch;
use sample_feed::town;
use section_store::{SectionStore, begin};
use std::alloc::Global;
use std::sync::Arc;
use std::test::Fail;
use stop_parts::Part;
use timetable::{Rides, StopId, Timetable};

/// How many stops a town has.
pub const STOPS: u32 = 12;

/// A town's timetable, and the trees of its stops for journeys of at most two rides.
#[derive(Drop)]
pub struct Town {
    pub table: Arc<Timetable>,
    pub trees: Vec<Finished>,
}

fn rides() -> Rides
    ensures { result ≡ 2 }
{
    Rides::new(2)
}

// The tree of a stop of a town.
fn tree_of(alloc: Global, table: &Arc<Timetable>, source: u32) -> Result<Finished, Fail>
    requires { stops_of (arc_value table.now) ≡ 12 }
{
    let mut scratch = Scratch::new(alloc, table, rides())?;
    let mut arena = Arena::new(alloc)?;
    let stop = StopId::new(source % STOPS);
    Ok(finish(alloc, table, stop, rides(), &mut scratch, &mut arena)?)
}

impl Town {
    /// The town of a seed.
    pub fn new(rt: &HostRuntime, seed: u32) -> Result<Self, Fail> {
        let alloc = rt.alloc();
        let table = Arc::new(alloc, town(rt, seed)?)?;
        let mut trees = Vec::new(alloc);
        for source in 0..STOPS {
            trees.push(tree_of(alloc, &table, source)?)?;
        }
        Ok(Town { table, trees })
    }

    /// A store without trees on that disk.
    pub fn begun(&self, alloc: Global) -> Result<SectionStore<MemDisk>, Fail> {
        match begin(alloc, MemDisk::new(alloc), &self.table, rides()) {
            Ok(store) => Ok(store),
            Err(_) => Err(Fail::new("a store wasn't begun")),
        }
    }

    /// The disk of a part, whose trees are stored by falling numbers of their stops: workers store them in any order.
    pub fn part(&self, alloc: Global, part: Part) -> Result<MemDisk, Fail> {
        let mut store = self.begun(alloc)?;
        for tree in self.trees.iter().rev() {
            if part.has(tree.tree().source().number()) {
                store.put(tree)?;
            }
        }
        Ok(store.into_disk())
    }

    /// The disks of that many parts.
    pub fn parts(&self, alloc: Global, count: u32) -> Result<Vec<MemDisk>, Fail> {
        let mut disks = Vec::new(alloc);
        for index in 0..count {
            disks.push(self.part(alloc, Part::new(index, count).ok_or("no such part")?)?)?;
        }
        Ok(disks)
    }

    /// The file that one worker builds: the trees by rising numbers of their stops.
    pub fn whole(&self, alloc: Global) -> Result<Vec<u8>, Fail> {
        let mut store = self.begun(alloc)?;
        for tree in &self.trees {
            store.put(tree)?;
        }
        bytes_of(alloc, &mut store.into_disk())
    }

    /// The shelf of these parts, added in their order.
    pub fn shelf(&self, alloc: Global, parts: Vec<MemDisk>) -> Result<PartShelf<MemDisk>, Fail>
        ensures { IfOk result (λ shelf. form_for shelf ≡ form_of (arc_value self.now.table) 2) }
    {
        let mut shelf = PartShelf::new(alloc, &self.table, rides())?;
        for disk in parts {
            add(&mut shelf, disk)?;
        }
        Ok(shelf)
    }
}

// Adds a part.
fn add(shelf: &mut PartShelf<MemDisk>, disk: MemDisk) -> Result<(), Fail>
    ensures { form_for shelf.new ≡ form_for shelf.old }
{
    match shelf.add(disk) {
        Ok(()) => Ok(()),
        Err(refused) => Err(Fail::from(refused.0)),
    }
}

/// All bytes of a file.
pub fn bytes_of(alloc: Global, disk: &mut MemDisk) -> Result<Vec<u8>, Fail> {
    let mut bytes = Vec::new(alloc);
    read_up_to(disk, 0, 1_000_000, &mut bytes)?;
    Ok(bytes)
}

/// What a merge reported: how many stops there were at last, of how many.
#[derive(Clone, Copy, Debug, PartialEq, Eq)]
pub struct Heard {
    pub last: usize,
    pub of: usize,
}

impl Progress for Heard {
    fn reached(&mut self, _what: Done, times: usize, of: usize) {
        self.last = times;
        self.of = of;
    }

    fn ended(&mut self) {}
}

/// A merge that has ended: which stops the file has, or why it stopped; and the disk.
#[derive(Drop)]
pub struct Ended {
    pub stored: Result<Vec<u32>, MergeFault>,
    pub disk: MemDisk,
    pub heard: Heard,
}

/// Puts the trees of these parts into the file of a disk. None if that isn't opened.
pub fn merged(
    alloc: Global,
    town: &Town,
    parts: Vec<MemDisk>,
    out: MemDisk,
) -> Result<Result<Ended, MemDisk>, Fail> {
    let mut shelf = town.shelf(alloc, parts)?;
    let mut store = match recover_to(alloc, out, &town.table, rides(), &mut Nobody) {
        Ok(store) => store,
        Err((_, disk)) => return Ok(Err(disk)),
    };
    let mut heard = Heard { last: 0, of: 0 };
    let stored = match merge(&mut store, &mut shelf, &mut heard) {
        Ok(()) => {
            let mut stops = Vec::new(alloc);
            for stop in store.stored() {
                stops.push(stop.number() as u32)?;
            }
            Ok(stops)
        }
        Err(fault) => Err(fault),
    };
    Ok(Ok(Ended {
        stored,
        disk: store.into_disk(),
        heard,
    }))
}
