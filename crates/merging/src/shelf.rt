//! Where the trees come from.

ghost use Rattle.std.specs.Prelude.{◌≡◌, ◌<◌, ℕ, List, IfOk, IfSome, MatchResult};
ghost use Rattle.disk_model.specs.Disk.{State};
ghost use Rattle.timetable.specs.Table.{stops_of};
ghost use Rattle.pattern_tree.specs.Content.{Content};
ghost use Rattle.section_store.specs.Sections.{Form, MayStand};
ghost use Rattle.merging.specs.Merging.{tree_of};
ghost use Rattle.merging.specs.Reads.{IsSteady, OnlyFailing};

use crate::fault::ShelfFault;
use pattern_tree::PatternTree;
use timetable::StopId;

/// Trees of stops, of one or of several stores, which are given one at a time. Nothing is written.
pub trait Shelf {
    /// What its trees are for.
    ghost form: { Self → Form };

    /// Its disks keep to their rules and are in these states, and it has these trees, in this order.
    ghost has: { Self → List State → List Content → Type 0 };

    /// Of each part, by its index, how many calls of its disk have failed.
    ghost failures: { Self → List ℕ };

    /// The first of its trees whose source is the stop; none if it has no such tree. A fault comes only of a read or of memory.
    fn tree(&mut self, stop: StopId) -> Result<Option<PatternTree>, ShelfFault>
        requires known { stop < stops_of (form self.old).table }
        ensures found { (disks : List State) (all : List Content) → has self.old disks all
            → MatchResult result (λ found. found ≡ tree_of all stop) IsSteady }
        ensures still { (disks : List State) (all : List Content) → has self.old disks all → has self.new disks all }
        ensures may { IfOk result (λ found. IfSome found (MayStand (form self.old))) }
        ensures of { IfOk result (λ found. IfSome found (λ tree. tree.source ≡ stop)) }
        ensures counted { MatchResult result (λ _. failures self.new ≡ failures self.old)
            (OnlyFailing (failures self.old) (failures self.new)) }
        ensures form { form self.new ≡ form self.old };
}
