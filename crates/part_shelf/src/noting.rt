//! Notes where the trees of a part stand.

ghost use Rattle.std.specs.Prelude.{◌≡◌, ◌++◌, [], ◌∷◌, List, length};
ghost use Rattle.std.specs.List.{AllZip};
ghost use Rattle.disk_model.specs.Disk.{State};
ghost use Rattle.pattern_tree.specs.Content.{Content};
ghost use Rattle.section_store.specs.Sections.{Form};
ghost use Rattle.part_shelf.specs.Spots.{AreSpots, IsEntry, with_first};

use crate::entry::{Entry, Spot};
use timetable::StopId;

// Notes a spot, if the stop has none yet.
fn note_one(spots: &mut Vec<Option<Spot>>, stop: StopId, spot: Spot)
    ensures { spots.new.items ≡ with_first spots.old.items stop spot }
{
    let number = stop.number();
    if number < spots.len() && spots[number].is_none() {
        spots[number] = Some(spot);
    }
}

/// Notes where the trees of one part more stand, of which these are the entries. A stop that has a spot keeps it.
pub(crate) fn note(spots: &mut Vec<Option<Spot>>, part: usize, entries: &[Entry])
    ensures { (form : Form) (states : List State) (now : State) (all trees : List Content) → part ≡ length states
        → AreSpots form states spots.old.items all → AllZip (IsEntry form now.read) entries.now trees
        → AreSpots form (states ++ now ∷ []) spots.new.items (all ++ trees) }
{
    for i in 0..entries.len() {
        let entry = entries[i];
        let spot = Spot {
            part,
            place: entry.place,
            size: entry.size,
        };
        note_one(spots, entry.source, spot);
    }
}
