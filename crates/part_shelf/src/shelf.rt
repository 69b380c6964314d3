//! The shelf of several parts.

ghost use Rattle.std.specs.Prelude.{◌≡◌, [], IfOk};
ghost use Rattle.std.specs.Arc.{arc_value};
ghost use Rattle.section_store.specs.Sections.{form_of};
ghost use Rattle.part_shelf.specs.Shelves.{Has, form_for};

use crate::entry::Spot;
use crate::fault::of_text;
use crate::reading::{read_spot, tree_in};
use disk_model::Disk;
use merging::{Shelf, ShelfFault};
use pattern_tree::PatternTree;
use std::alloc::{AllocError, Global};
use std::sync::Arc;
use timetable::{Rides, StopId, Timetable};

/// The stores of several parts, which are only read: their disks in the order in which they were added, and for each stop of the timetable
/// where its tree stands. So a tree is read by one look, in whatever order the trees were stored, and only one is in memory at a time.
#[derive(Drop)]
pub struct PartShelf<D: Disk> {
    pub(crate) alloc: Global,
    pub(crate) table: Arc<Timetable>,
    pub(crate) rides: Rides,
    pub(crate) disks: Vec<D>,
    pub(crate) spots: Vec<Option<Spot>>,
    pub(crate) text: Vec<u8>,
}

impl<D: Disk> PartShelf<D> {
    /// A shelf without parts, for trees of that timetable and of journeys of at most `rides` rides. It fails only if memory runs out.
    pub fn new(alloc: Global, table: &Arc<Timetable>, rides: Rides) -> Result<Self, AllocError>
        ensures form { IfOk result (λ shelf. form_for shelf ≡ form_of (arc_value table.now) rides) }
        ensures none { IfOk result (λ shelf. Has D.honest D.state shelf [] []) }
        ensures disks { IfOk result (λ shelf. shelf.disks.items ≡ []) }
    {
        let spots = vec![in alloc; None; table.stops()]?;
        let table = Arc::try_clone(table)?;
        Ok(PartShelf {
            alloc,
            table,
            rides,
            disks: Vec::new(alloc),
            spots,
            text: Vec::new(alloc),
        })
    }

    /// The disks, given back.
    pub fn into_disks(self) -> Vec<D>
        ensures { result ≡ self.disks }
    {
        self.disks
    }
}

impl<D: Disk> Shelf for PartShelf<D> {
    ghost use Rattle.std.specs.Prelude.{map};
    ghost use Rattle.part_shelf.specs.Shelves.{Has, form_for};

    ghost form = { form_for };

    ghost has = { Has D.honest D.state };

    ghost failures = { λ shelf. map D.failures shelf.disks.items };

    fn tree(&mut self, stop: StopId) -> Result<Option<PatternTree>, ShelfFault> {
        let Some(Some(spot)) = self.spots.get(stop.number()).copied() else {
            return Ok(None);
        };
        if let Err(fault) = read_spot(&mut self.disks, spot, &mut self.text) {
            return Err(of_text(spot.part, fault));
        }
        match tree_in(self.alloc, &self.text, &self.table, self.rides, stop) {
            Ok(tree) => Ok(Some(tree)),
            Err(fault) => Err(of_text(spot.part, fault)),
        }
    }
}
