//! A board of the sample feed, and what is shown on it.

ghost use Rattle.std.specs.Prelude.{◌≡◌, ◌<◌, IfOk};
ghost use Rattle.std.specs.Arc.{arc_value};
ghost use Rattle.timetable.specs.Table.{stops_of};
ghost use Rattle.section_store.specs.Sections.{form_of};

use board::{Reader, Stored, Writer, open};
use disk_model::MemDisk;
use pattern_building::finish;
use pattern_tree::{Arena, Finished};
use rounds::Scratch;
use section_store::begin;
use std::alloc::{AllocError, Global};
use std::sync::{Arc, Wait};
use std::test::Fail;
use timetable::{Rides, StopId, Timetable};

/// The finished tree of a stop.
pub fn tree(alloc: Global, table: &Arc<Timetable>, source: u32) -> Result<Finished, Fail>
    requires stops { stops_of (arc_value table.now) ≡ 5 }
    requires source { source < 5 }
    ensures { IfOk result (λ tree. form_of tree.table tree.rides ≡ form_of (arc_value table.now) 3) }
{
    let rides = Rides::new(3);
    let mut scratch = Scratch::new(alloc, table, rides)?;
    let mut arena = Arena::new(alloc)?;
    let source = StopId::new(source);
    Ok(finish(alloc, table, source, rides, &mut scratch, &mut arena)?)
}

/// A tree with the receipt of a store in memory that has no other tree. Such a disk fails only if memory runs out.
pub fn stored(alloc: Global, tree: Finished) -> Result<Stored, AllocError>
    ensures { IfOk result (λ stored. stored.form ≡ form_of tree.table tree.rides) }
{
    let Ok(mut store) = begin(alloc, MemDisk::new(alloc), tree.timetable(), tree.k()) else {
        return Err(AllocError);
    };
    let Ok(receipt) = store.put(&tree) else {
        return Err(AllocError);
    };
    Stored::new(alloc, tree, receipt).map_err(|_| AllocError)
}

/// A writer, and a finished tree for its board, of which it shows copies.
pub struct Showing {
    pub writer: Writer,
    pub tree: Finished,
    ghost form: { form_of tree.table tree.rides ≡ writer.origin.form },
}

impl Showing {
    /// Shows one copy more; whether it did.
    pub fn show_one<R: Wait>(&mut self, rt: &R, alloc: Global) -> bool {
        let Ok(copy) = self.tree.try_copy(alloc) else {
            return false;
        };
        let Ok(stored) = stored(alloc, copy) else {
            return false;
        };
        self.writer.publish(rt, stored).is_ok()
    }

    /// Shows `count` copies; whether it did.
    pub fn show<R: Wait>(&mut self, rt: &R, alloc: Global, count: u64) -> bool {
        for _ in 0..count {
            if !self.show_one(rt, alloc) {
                return false;
            }
        }
        true
    }

    /// Ends the board.
    pub fn close<R: Wait>(self, rt: &R) {
        let Showing {
            writer,
            tree: _tree,
        } = self;
        writer.close(rt);
    }
}

/// A board without trees, and its one reader.
pub fn opened<R: Wait>(
    rt: &R,
    alloc: Global,
    table: &Arc<Timetable>,
) -> Result<(Writer, Reader), Fail>
    ensures form { IfOk result (λ r. r.0.origin.form ≡ form_of (arc_value table.now) 3) }
    ensures told { IfOk result (λ r. r.1.told ≡ r.0.told) }
{
    let (writer, mut readers) = open(alloc, rt, table, Rides::new(3), Vec::new(alloc), 1)?;
    match readers.pop() {
        Some(reader) => Ok((writer, reader)),
        None => {
            writer.close(rt);
            Err(Fail::new("no reader"))
        }
    }
}
