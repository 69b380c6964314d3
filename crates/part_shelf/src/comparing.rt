//! Compares the trees of a part with those of the parts before it.

ghost use Rattle.std.specs.Prelude.{◌≡◌, ◌↔◌, ◌<◌, ◌++◌, [], ◌∷◌, List, get_or, length, map, IsTrue, MatchResult};
ghost use Rattle.std.specs.List.{All, AllZip};
ghost use Rattle.disk_model.specs.Disk.{State, empty_disk};
ghost use Rattle.pattern_tree.specs.Content.{Content};
ghost use Rattle.section_store.specs.Sections.{Form};
ghost use Rattle.merging.specs.Reads.{IsSteady, OnlyFailing};
ghost use Rattle.part_shelf.specs.Comparing.{AgreeWith, FailsOnly, IsUnlike};
ghost use Rattle.part_shelf.specs.Spots.{AreSpots, IsEntry, IsTextAt};

use crate::entry::{Entry, Spot};
use crate::fault::{PartFault, of_text};
use crate::reading::{read_spot, read_text, same_bytes};
use disk_model::Disk;
use merging::ShelfFault;
use std::alloc::Global;
use tree_codec::laws::{one_text, texts_apart};

// Whether the tree at the spot and the one of the entry, which is on the disk, have the same source and the same pairs. Their texts are
// read into the two buffers. The disk is that of the part that comes next.
fn is_same<D: Disk>(
    disks: &mut Vec<D>,
    spot: Spot,
    disk: &mut D,
    entry: &Entry,
    left: &mut Vec<u8>,
    right: &mut Vec<u8>,
) -> Result<bool, ShelfFault>
    ensures same { (form : Form) (states : List State) (tree other : Content) → All D.honest disks.old.items → D.honest disk.old
        → states ≡ map D.state disks.old.items → spot.part < length states
        → IsTextAt form (get_or states spot.part empty_disk).read spot.place spot.size other
        → IsTextAt form (D.state disk.old).read entry.now.place entry.now.size tree
        → MatchResult result (λ same. IsTrue same ↔ tree ≡ other) IsSteady }
    ensures honest { (All D.honest disks.old.items → All D.honest disks.new.items) × (D.honest disk.old ↔ D.honest disk.new) }
    ensures still { (All D.honest disks.old.items → map D.state disks.new.items ≡ map D.state disks.old.items)
        × (D.honest disk.old → D.state disk.new ≡ D.state disk.old) }
    ensures counted { MatchResult result
        (λ _. (map D.failures disks.new.items ≡ map D.failures disks.old.items) × (D.failures disk.new ≡ D.failures disk.old))
        (OnlyFailing (map D.failures disks.old.items ++ D.failures disk.old ∷ [])
        (map D.failures disks.new.items ++ D.failures disk.new ∷ [])) }
{
    texts_apart();
    one_text();
    if let Err(fault) = read_spot(disks, spot, left) {
        return Err(of_text(spot.part, fault));
    }
    match read_text(disk, entry.place, entry.size, right) {
        Ok(()) => Ok(same_bytes(left, right)),
        Err(fault) => Err(of_text(disks.len(), fault)),
    }
}

// Looks whether the tree of the entry is that of the part that has one of its stop, if there is one.
fn compare_one<D: Disk>(
    disks: &mut Vec<D>,
    spots: &[Option<Spot>],
    disk: &mut D,
    entry: &Entry,
    left: &mut Vec<u8>,
    right: &mut Vec<u8>,
) -> Result<(), PartFault>
    ensures agree { (form : Form) (states : List State) (all : List Content) (tree : Content) → All D.honest disks.old.items
        → D.honest disk.old → states ≡ map D.state disks.old.items → AreSpots form states spots.now all
        → IsEntry form (D.state disk.old).read entry.now tree
        → MatchResult result (λ _. AgreeWith all (tree ∷ [])) (IsUnlike form states all (tree ∷ [])) }
    ensures honest { (All D.honest disks.old.items → All D.honest disks.new.items) × (D.honest disk.old ↔ D.honest disk.new) }
    ensures still { (All D.honest disks.old.items → map D.state disks.new.items ≡ map D.state disks.old.items)
        × (D.honest disk.old → D.state disk.new ≡ D.state disk.old) }
    ensures counted { MatchResult result
        (λ _. (map D.failures disks.new.items ≡ map D.failures disks.old.items) × (D.failures disk.new ≡ D.failures disk.old))
        (FailsOnly (map D.failures disks.old.items) (map D.failures disks.new.items) (D.failures disk.old) (D.failures disk.new)) }
{
    let Some(Some(spot)) = spots.get(entry.source.number()).copied() else {
        return Ok(());
    };
    match is_same(disks, spot, disk, entry, left, right) {
        Err(fault) => Err(PartFault::Shelf(fault)),
        Ok(same) => {
            if same {
                Ok(())
            } else {
                Err(PartFault::OtherTree {
                    stop: entry.source,
                    part: spot.part,
                })
            }
        }
    }
}

/// Looks whether each tree of the part on the disk that another part has is the same there. The entries say where its trees stand.
pub(crate) fn compare<D: Disk>(
    alloc: Global,
    disks: &mut Vec<D>,
    spots: &[Option<Spot>],
    disk: &mut D,
    entries: &[Entry],
) -> Result<(), PartFault>
    ensures agree { (form : Form) (states : List State) (all trees : List Content) → All D.honest disks.old.items → D.honest disk.old
        → states ≡ map D.state disks.old.items → AreSpots form states spots.now all
        → AllZip (IsEntry form (D.state disk.old).read) entries.now trees
        → MatchResult result (λ _. AgreeWith all trees) (IsUnlike form states all trees) }
    ensures honest { (All D.honest disks.old.items → All D.honest disks.new.items) × (D.honest disk.old ↔ D.honest disk.new) }
    ensures still { (All D.honest disks.old.items → map D.state disks.new.items ≡ map D.state disks.old.items)
        × (D.honest disk.old → D.state disk.new ≡ D.state disk.old) }
    ensures counted { MatchResult result
        (λ _. (map D.failures disks.new.items ≡ map D.failures disks.old.items) × (D.failures disk.new ≡ D.failures disk.old))
        (FailsOnly (map D.failures disks.old.items) (map D.failures disks.new.items) (D.failures disk.old) (D.failures disk.new)) }
{
    let mut left = Vec::new(alloc);
    let mut right = Vec::new(alloc);
    for i in 0..entries.len() {
        compare_one(disks, spots, disk, &entries[i], &mut left, &mut right)?;
    }
    Ok(())
}
