//! Lists where the trees of a store stand.

ghost use Rattle.std.specs.Prelude.{◌≡◌, ◌↔◌, ◌⊎◌, IfOk, IfErr, MatchResult};
ghost use Rattle.std.specs.Arc.{arc_value};
ghost use Rattle.disk_model.specs.Disk.{Grew};
ghost use Rattle.section_store.specs.Sections.{form_of};
ghost use Rattle.recovery.specs.Recovery.{CauseOf, IsLeftAlone, IsOutside, StandsForNoList};
ghost use Rattle.part_shelf.specs.Spots.{IsListing};

use crate::entry::Entry;
use disk_model::Disk;
use file_kinds::is_begun;
use pattern_tree::PatternTree;
use recovery::{Keeper, recover_to};
use std::alloc::{AllocError, Allocator, Global};
use std::sync::Arc;
use store_faults::RecoverFault;
use timetable::{Rides, Timetable, Width};
use tree_codec::encode;
use tree_codec::laws::one_text;

// How many bytes stand before the timetable's in a store's header.
const BEFORE_TIMETABLE: u64 = 14;

// How many bytes stand before a tree's text: an open gate and a length.
const BEFORE_TEXT: u64 = 5;

/// Lists where each tree stands that it is given, in their order. `next` is the place of the gate that comes next.
#[derive(Drop)]
pub(crate) struct Index {
    pub(crate) entries: Vec<Entry>,
    pub(crate) next: u64,
    pub(crate) text: Vec<u8>,
}

impl Keeper for Index {
    ghost use Rattle.part_shelf.specs.Spots.{Lists};

    ghost takes = { Lists };

    fn take<A: Allocator>(&mut self, tree: &PatternTree<A>) -> Result<(), AllocError> {
        self.text.clear();
        encode(tree, &mut self.text)?;
        let size = self.text.len() as u64;
        // No file is so long that these fail.
        let place = self.next.checked_add(BEFORE_TEXT).ok_or(AllocError)?;
        let next = place.checked_add(size).ok_or(AllocError)?;
        self.entries.push(Entry {
            source: tree.source(),
            place,
            size,
        })?;
        self.next = next;
        Ok(())
    }
}

/// Where the trees of a store stand in the file of the disk, in storing order. It is recovered as `recover` does, but nothing is begun in a
/// fresh file, which has no trees. The disk comes back; nothing is done to it but at most a sync.
pub(crate) fn list_trees<D: Disk>(
    alloc: Global,
    disk: D,
    table: &Arc<Timetable>,
    rides: Rides,
) -> Result<(D, Vec<Entry>), (RecoverFault, D)>
    ensures listed { D.honest disk → IfOk result (λ r.
        IsListing (form_of (arc_value table.now) rides) (D.state disk) (D.state r.0) r.1.items) }
    ensures refused { D.honest disk → IfErr result
        (λ e. IsOutside e.0 ⊎ StandsForNoList (form_of (arc_value table.now) rides) (D.state disk).read) }
    ensures cause { D.honest disk → IfErr result (λ e. CauseOf (form_of (arc_value table.now) rides) (D.state disk).read e.0) }
    ensures alone { D.honest disk → IfErr result (λ e. IsLeftAlone (D.state disk) (D.state e.1)) }
    ensures device { MatchResult result (λ r. D.failures r.0 ≡ D.failures disk)
        (λ e. e.0 ≡ RecoverFault.Device → Grew (D.failures disk) (D.failures e.1)) }
    ensures honest { MatchResult result (λ r. D.honest disk ↔ D.honest r.0) (λ e. D.honest disk ↔ D.honest e.1) }
{
    one_text();
    let mut disk = disk;
    match is_begun(&mut disk) {
        Err(_) => Err((RecoverFault::Device, disk)),
        Ok(false) => Ok((disk, Vec::new(alloc))),
        Ok(true) => {
            let mut index = Index {
                entries: Vec::new(alloc),
                next: BEFORE_TIMETABLE + u64::from(table.canonical_len(Width::Four)),
                text: Vec::new(alloc),
            };
            match recover_to(alloc, disk, table, rides, &mut index) {
                Err(refused) => Err(refused),
                Ok(store) => Ok((store.into_disk(), index.entries)),
            }
        }
    }
}
