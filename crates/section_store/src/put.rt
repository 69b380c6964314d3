//! Puts a tree.

ghost use Rattle.std.specs.Prelude.{◌≡◌, ◌↔◌, ◌++◌, [], ◌∷◌, List, length, OnOk, IfOk, IfErr, MatchResult};
ghost use Rattle.disk_model.specs.Moments.{LeavesOnly};
ghost use Rattle.pattern_tree.specs.Content.{Content};
ghost use Rattle.section_store.specs.Fault.{HasCause, IsTooLarge};
ghost use Rattle.section_store.specs.Lasting.{IsExact, LosesNothing, StaysTrusted};
ghost use Rattle.section_store.specs.Sections.{IsBeforeOrAfter, IsNew, MayStand};
ghost use Rattle.section_store.specs.Store.{Holds};

use crate::fault::PutFault;
use crate::laws::stands_for_one;
use crate::receipt::Receipt;
use crate::step::Step;
use crate::store::SectionStore;
use disk_model::Disk;
use pattern_tree::laws::finished_is_within;
use pattern_tree::{Finished, PatternTree};

impl<D: Disk> SectionStore<D> {
    /// Puts a tree after those that are stored. A crash at any moment leaves the list before, or that list and this tree;
    /// after a Receipt it leaves the latter. What a crash could no longer take away it never can again, and a trusted disk
    /// stays trusted. A fault but `Device` comes before any call of the disk and changes nothing; after `Device` each put is
    /// refused, until the file is recovered.
    ///
    /// The tree's timetable is compared with the store's by all that they say, so both are read whole. A caller that knows that they
    /// are the same calls `put_tree`.
    pub fn put(&mut self, tree: &Finished) -> Result<Receipt, PutFault>
        ensures holds { (trees : List Content) → D.honest self.old.disk
            → Holds self.old.form trees self.old.place self.old.stored (D.state self.old.disk)
            → OnOk result (Holds self.old.form (trees ++ tree.now.tree ∷ []) self.new.place self.new.stored
            (D.state self.new.disk)) }
        ensures moments { (trees : List Content) → D.honest self.old.disk
            → Holds self.old.form trees self.old.place self.old.stored (D.state self.old.disk)
            → LeavesOnly (D.state self.old.disk) (D.state self.new.disk) (IsBeforeOrAfter self.old.form trees tree.now.tree) }
        ensures lasting { (trees : List Content) → D.honest self.old.disk
            → Holds self.old.form trees self.old.place self.old.stored (D.state self.old.disk)
            → LosesNothing self.old.form (D.state self.old.disk) (D.state self.new.disk) }
        ensures trusted { (trees : List Content) → D.honest self.old.disk
            → Holds self.old.form trees self.old.place self.old.stored (D.state self.old.disk)
            → StaysTrusted self.old.form (D.state self.old.disk) (D.state self.new.disk) }
        ensures honest { D.honest self.old.disk ↔ D.honest self.new.disk }
        ensures cause { HasCause result (self.old.next ≡ Step.WriteBody)
            ((tree.now.table ≡ self.old.form.table) × (tree.now.rides ≡ self.old.form.rides))
            (IsNew tree.now.tree.source self.old.stored)
            (IsTooLarge self.old.form tree.now.tree self.old.place)
            (D.failures self.old.disk) (D.failures self.new.disk) }
        ensures same { IfErr result (λ fault. ¬ (fault ≡ PutFault.Device)
            → (self.new.disk ≡ self.old.disk) × (self.new.place ≡ self.old.place) × (self.new.next ≡ self.old.next)) }
        ensures failed { IfErr result (λ fault. fault ≡ PutFault.Device → self.new.next ≡ Step.Failed) }
        ensures next { OnOk result (self.new.next ≡ Step.WriteBody) }
        ensures form { self.new.form ≡ self.old.form }
        ensures stored { MatchResult result
            (λ _. self.new.stored ≡ self.old.stored ++ tree.now.tree.source ∷ [])
            (λ _. self.new.stored ≡ self.old.stored) }
        ensures receipt { IfOk result (λ r. (r.source ≡ tree.now.tree.source) × (r.number ≡ length self.old.stored)) }
    {
        finished_is_within();
        let _valid = tree.timetable().stops();
        if self.next_step() != Step::WriteBody {
            return Err(PutFault::Failed);
        }
        if !self.form().is_of(tree) {
            return Err(PutFault::OtherTimetable);
        }
        self.put_tree(tree.tree())
    }

    /// Puts a tree that may stand in the store, as `put` does. It reads no timetable. A trusted disk stays trusted if the tree has the
    /// patterns of all best journeys from its source, and no others.
    pub fn put_tree(&mut self, tree: &PatternTree) -> Result<Receipt, PutFault>
        requires may { MayStand self.old.form tree.now }
        ensures holds { (trees : List Content) → D.honest self.old.disk
            → Holds self.old.form trees self.old.place self.old.stored (D.state self.old.disk)
            → OnOk result (Holds self.old.form (trees ++ tree.now ∷ []) self.new.place self.new.stored
            (D.state self.new.disk)) }
        ensures moments { (trees : List Content) → D.honest self.old.disk
            → Holds self.old.form trees self.old.place self.old.stored (D.state self.old.disk)
            → LeavesOnly (D.state self.old.disk) (D.state self.new.disk) (IsBeforeOrAfter self.old.form trees tree.now) }
        ensures lasting { (trees : List Content) → D.honest self.old.disk
            → Holds self.old.form trees self.old.place self.old.stored (D.state self.old.disk)
            → LosesNothing self.old.form (D.state self.old.disk) (D.state self.new.disk) }
        ensures trusted { (trees : List Content) → D.honest self.old.disk
            → Holds self.old.form trees self.old.place self.old.stored (D.state self.old.disk)
            → IsExact self.old.form tree.now → StaysTrusted self.old.form (D.state self.old.disk) (D.state self.new.disk) }
        ensures honest { D.honest self.old.disk ↔ D.honest self.new.disk }
        ensures cause { HasCause result (self.old.next ≡ Step.WriteBody)
            (MayStand self.old.form tree.now)
            (IsNew tree.now.source self.old.stored)
            (IsTooLarge self.old.form tree.now self.old.place)
            (D.failures self.old.disk) (D.failures self.new.disk) }
        ensures same { IfErr result (λ fault. ¬ (fault ≡ PutFault.Device)
            → (self.new.disk ≡ self.old.disk) × (self.new.place ≡ self.old.place) × (self.new.next ≡ self.old.next)) }
        ensures failed { IfErr result (λ fault. fault ≡ PutFault.Device → self.new.next ≡ Step.Failed) }
        ensures next { OnOk result (self.new.next ≡ Step.WriteBody) }
        ensures form { self.new.form ≡ self.old.form }
        ensures stored { MatchResult result
            (λ _. self.new.stored ≡ self.old.stored ++ tree.now.source ∷ [])
            (λ _. self.new.stored ≡ self.old.stored) }
        ensures receipt { IfOk result (λ r. (r.source ≡ tree.now.source) × (r.number ≡ length self.old.stored)) }
    {
        stands_for_one();
        self.write_body(tree)?;
        self.sync_body()?;
        self.open_gate()?;
        self.sync_gate()
    }
}
