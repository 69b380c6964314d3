//! Adds a part.

ghost use Rattle.std.specs.Prelude.{◌≡◌, ◌↔◌, ◌++◌, [], ◌∷◌, List, IfErr, MatchResult, map};
ghost use Rattle.disk_model.specs.Disk.{State};
ghost use Rattle.pattern_tree.specs.Content.{Content};
ghost use Rattle.recovery.specs.Recovery.{IsLeftAlone};
ghost use Rattle.part_shelf.specs.Comparing.{FailsOnly};
ghost use Rattle.part_shelf.specs.Shelves.{Has, IsAdded, WhyNot, form_for};

use crate::comparing::compare;
use crate::fault::PartFault;
use crate::listing::list_trees;
use crate::noting::note;
use crate::shelf::PartShelf;
use disk_model::Disk;
use store_faults::RecoverFault;

impl<D: Disk> PartShelf<D> {
    /// Adds the part whose store the file of the disk holds. The file is recovered, and not written: a fresh one has no trees. It is read
    /// whole, and the text of each tree that another part has too is read once more, with the one there. The disk comes back with each
    /// fault, and the shelf is then as before.
    pub fn add(&mut self, disk: D) -> Result<(), (PartFault, D)>
        ensures added { (states : List State) (all : List Content)
            → Has D.honest D.state self.old states all → D.honest disk → MatchResult result
            (λ _. IsAdded (form_for self.old) (D.state disk) all
            (λ now trees. Has D.honest D.state self.new (states ++ now ∷ []) trees))
            (λ e. WhyNot (form_for self.old) (D.state disk).read states all e.0
            × IsLeftAlone (D.state disk) (D.state e.1)
            × Has D.honest D.state self.new states all) }
        ensures device { MatchResult result
            (λ _. map D.failures self.new.disks.items ≡ map D.failures self.old.disks.items ++ D.failures disk ∷ [])
            (λ e. FailsOnly (map D.failures self.old.disks.items) (map D.failures self.new.disks.items)
            (D.failures disk) (D.failures e.1) e.0) }
        ensures honest { IfErr result (λ e. D.honest disk ↔ D.honest e.1) }
        ensures form { form_for self.new ≡ form_for self.old }
    {
        match list_trees(self.alloc, disk, &self.table, self.rides) {
            Err((fault, disk)) => Err((PartFault::Store(fault), disk)),
            Ok((disk, entries)) => {
                let mut disk = disk;
                match compare(
                    self.alloc,
                    &mut self.disks,
                    &self.spots,
                    &mut disk,
                    &entries,
                ) {
                    Err(fault) => Err((fault, disk)),
                    Ok(()) => {
                        if self.disks.reserve(1).is_err() {
                            return Err((PartFault::Store(RecoverFault::Memory), disk));
                        }
                        note(&mut self.spots, self.disks.len(), &entries);
                        self.disks.push_reserved(disk);
                        Ok(())
                    }
                }
            }
        }
    }
}
