//! The sample feed's town, and lives of it.

ghost use Rattle.std.specs.Prelude.{◌<◌};

use disk_model::{MemDisk, read_up_to};
use planner_life::{Life, Order, Reply, run_life};
use sample_feed::demo;
use std::alloc::Global;
use std::sync::Arc;
use std::test::Fail;
use timetable::{Rides, StopId, Timetable};

/// The sample feed's timetable of one day. Its stops are A to E.
pub fn town_of(rt: &HostRuntime) -> Result<Arc<Timetable>, Fail> {
    let alloc = rt.alloc();
    Ok(Arc::new(alloc, demo(rt)?)?)
}

/// An order to build the tree of a stop.
pub fn build(number: u32) -> Order
    requires { number < 1000000 }
{
    Order::Build(StopId::new(number))
}

/// A question for the journeys from a stop to a stop.
pub fn ask(from: u32, to: u32, depart: u32) -> Order
    requires from { from < 1000000 }
    requires to { to < 1000000 }
{
    Order::Ask(StopId::new(from), StopId::new(to), depart)
}

/// A life for journeys of at most three rides.
pub fn life_of(
    alloc: Global,
    table: &Arc<Timetable>,
    disk: MemDisk,
    orders: &[Order],
) -> Life<MemDisk> {
    run_life(alloc, disk, table, Rides::new(3), orders)
}

/// How many orders were replied that the tree is stored.
pub fn receipts_of(life: &Life<MemDisk>) -> usize {
    let mut count = 0_usize;
    for reply in &life.replies {
        if matches!(reply, Reply::Stored(_)) {
            count = count.saturating_add(1);
        }
    }
    count
}

/// Whether these are the first stops, in their order.
pub fn is_first(list: &[StopId]) -> bool {
    list.iter()
        .enumerate()
        .all(|(index, stop)| stop.number() == index)
}

/// Whether the sources that were recovered are the first `count` stops, in their order.
pub fn is_front(life: &Life<MemDisk>, count: usize) -> bool {
    match &life.recovered {
        None => false,
        Some(list) => list.len() == count && is_first(list),
    }
}

/// All bytes of a file.
pub fn bytes_of(alloc: Global, disk: &mut MemDisk) -> Result<Vec<u8>, Fail> {
    let mut bytes = Vec::new(alloc);
    read_up_to(disk, 0, 1_000, &mut bytes)?;
    Ok(bytes)
}
