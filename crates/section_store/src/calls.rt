//! The four calls of the disk by which a tree is put, in this order: its section is written, and synced; the gate before it
//! is opened, and that is synced. After a fault of one of them none comes any more. Each function makes just its one call, and
//! fails if that call was set to fail.

ghost use Rattle.std.specs.Prelude.{◌≡◌, ◌↔◌, ◌+◌, ◌++◌, [], ◌∷◌, List, length, OnOk, IfOk, IfErr, IsErr, MatchResult};
ghost use Rattle.disk_model.specs.Disk.{Writes, Syncs, after_sync};
ghost use Rattle.disk_model.specs.Moments.{LeavesOnly};
ghost use Rattle.pattern_tree.specs.Content.{Content};
ghost use Rattle.section_store.specs.Fault.{HasCause, OnlyDevice, IsTooLarge};
ghost use Rattle.section_store.specs.Lasting.{LosesNothing};
ghost use Rattle.section_store.specs.Sections.{Form, IsSections, IsBeforeOrAfter, IsNew, MayStand, open_gate};
ghost use Rattle.section_store.specs.Store.{IsRest, IsBody, IsDurable, IsOpened, Holds, WroteBody, BodyFailed};

use crate::body::fill_body;
use crate::fault::PutFault;
use crate::header::OPEN;
use crate::laws::stands_for_one;
use crate::receipt::Receipt;
use crate::step::Step;
use crate::store::SectionStore;
use disk_model::Disk;
use pattern_tree::PatternTree;

// The most bytes of a store's file.
const LIMIT: u64 = 1_099_511_627_776;

impl<D: Disk> SectionStore<D> {
    /// Writes the length and the text of a tree that may stand in the store after the closed gate, and a closed gate after them. Each
    /// refusal of a put but a fault of the disk comes here, before the call.
    pub fn write_body(&mut self, tree: &PatternTree) -> Result<(), PutFault>
        requires may { MayStand self.old.form tree.now }
        ensures body { (trees : List Content) → D.honest self.old.disk
            → Holds self.old.form trees self.old.place self.old.stored (D.state self.old.disk)
            → OnOk result (IsBody self.old.form trees tree.now self.new.place self.new.extent (D.state self.new.disk)) }
        ensures written { D.honest self.old.disk → MatchResult result
            (λ _. WroteBody self.old.form tree.now self.old.place self.new.extent (D.state self.old.disk) (D.state self.new.disk))
            (λ fault. fault ≡ PutFault.Device
            → BodyFailed self.old.form tree.now self.old.place (D.state self.old.disk) (D.state self.new.disk)) }
        ensures moments { (trees : List Content) → D.honest self.old.disk
            → IsRest self.old.form trees self.old.place (D.state self.old.disk)
            → LeavesOnly (D.state self.old.disk) (D.state self.new.disk) (λ bytes. IsSections self.old.form bytes trees) }
        ensures lasting { (trees : List Content) → D.honest self.old.disk
            → IsRest self.old.form trees self.old.place (D.state self.old.disk)
            → LosesNothing self.old.form (D.state self.old.disk) (D.state self.new.disk) }
        ensures told { D.told_to_fail self.old.disk → IsErr result }
        ensures honest { D.honest self.old.disk ↔ D.honest self.new.disk }
        ensures cause { HasCause result (self.old.next ≡ Step.WriteBody)
            (MayStand self.old.form tree.now)
            (IsNew tree.now.source self.old.stored)
            (IsTooLarge self.old.form tree.now self.old.place)
            (D.failures self.old.disk) (D.failures self.new.disk) }
        ensures same { IfErr result (λ fault. ¬ (fault ≡ PutFault.Device)
            → (self.new.disk ≡ self.old.disk) × (self.new.extent ≡ self.old.extent) × (self.new.next ≡ self.old.next)) }
        ensures failed { IfErr result (λ fault. fault ≡ PutFault.Device → self.new.next ≡ Step.Failed) }
        ensures next { OnOk result (self.new.next ≡ Step.SyncBody) }
        ensures place { self.new.place ≡ self.old.place }
        ensures form { self.new.form ≡ self.old.form }
        ensures stored { self.new.stored ≡ self.old.stored }
        ensures source { OnOk result (self.new.source ≡ tree.now.source) }
    {
        stands_for_one();
        let _valid = self.form.timetable().stops();
        if self.next != Step::WriteBody {
            return Err(PutFault::Failed);
        }
        if self.present.contains(tree.source()) {
            return Err(PutFault::AlreadyStored);
        }
        if self.stored.reserve(1).is_err() {
            return Err(PutFault::Memory);
        }
        let Ok(()) = fill_body(&mut self.body, tree) else {
            return Err(PutFault::Memory);
        };
        let extent = self.body.len() as u64;
        if self.place >= LIMIT || LIMIT - self.place <= extent {
            return Err(PutFault::TooLarge);
        }
        match self.disk.write_at(self.place + 1, &self.body) {
            Ok(()) => {
                self.extent = extent;
                self.source = tree.source();
                self.next = Step::SyncBody;
                Ok(())
            }
            Err(_) => {
                self.next = Step::Failed;
                Err(PutFault::Device)
            }
        }
    }

    /// Brings the section to the disk.
    pub fn sync_body(&mut self) -> Result<(), PutFault>
        requires { self.old.next ≡ Step.SyncBody }
        ensures body { (form : Form) (trees : List Content) (tree : Content) → D.honest self.old.disk
            → IsBody form trees tree self.old.place self.old.extent (D.state self.old.disk)
            → OnOk result (IsBody form trees tree self.new.place self.new.extent (D.state self.new.disk)
            × IsDurable (D.state self.new.disk)) }
        ensures synced { D.honest self.old.disk → Syncs result (D.state self.old.disk) (D.state self.new.disk) }
        ensures moments { (form : Form) (trees : List Content) (tree : Content) → D.honest self.old.disk
            → IsBody form trees tree self.old.place self.old.extent (D.state self.old.disk)
            → LeavesOnly (D.state self.old.disk) (D.state self.new.disk) (λ bytes. IsSections form bytes trees) }
        ensures lasting { (form : Form) → D.honest self.old.disk → LosesNothing form (D.state self.old.disk) (D.state self.new.disk) }
        ensures told { D.told_to_fail self.old.disk → IsErr result }
        ensures honest { D.honest self.old.disk ↔ D.honest self.new.disk }
        ensures device { OnlyDevice result (D.failures self.old.disk) (D.failures self.new.disk) }
        ensures next { MatchResult result (λ _. self.new.next ≡ Step.OpenGate) (λ _. self.new.next ≡ Step.Failed) }
        ensures place { self.new.place ≡ self.old.place }
        ensures extent { self.new.extent ≡ self.old.extent }
        ensures form { self.new.form ≡ self.old.form }
        ensures stored { self.new.stored ≡ self.old.stored }
        ensures source { self.new.source ≡ self.old.source }
    {
        match self.disk.sync() {
            Ok(()) => {
                self.next = Step::OpenGate;
                Ok(())
            }
            Err(_) => {
                self.next = Step::Failed;
                Err(PutFault::Device)
            }
        }
    }

    /// Opens the gate before the section.
    pub fn open_gate(&mut self) -> Result<(), PutFault>
        requires { self.old.next ≡ Step.OpenGate }
        ensures opened { (form : Form) (trees : List Content) (tree : Content) → D.honest self.old.disk
            → IsBody form trees tree self.old.place self.old.extent (D.state self.old.disk)
            → OnOk result (IsOpened form (trees ++ tree ∷ []) (self.new.place + self.new.extent) (D.state self.new.disk)) }
        ensures written { D.honest self.old.disk
            → Writes self.old.place (open_gate ∷ []) result (D.state self.old.disk) (D.state self.new.disk) }
        ensures moments { (form : Form) (trees : List Content) (tree : Content) → D.honest self.old.disk
            → IsBody form trees tree self.old.place self.old.extent (D.state self.old.disk) → IsDurable (D.state self.old.disk)
            → LeavesOnly (D.state self.old.disk) (D.state self.new.disk) (IsBeforeOrAfter form trees tree) }
        ensures lasting { (form : Form) (trees : List Content) (tree : Content) → D.honest self.old.disk
            → IsBody form trees tree self.old.place self.old.extent (D.state self.old.disk) → IsDurable (D.state self.old.disk)
            → LosesNothing form (D.state self.old.disk) (D.state self.new.disk) }
        ensures told { D.told_to_fail self.old.disk → IsErr result }
        ensures honest { D.honest self.old.disk ↔ D.honest self.new.disk }
        ensures device { OnlyDevice result (D.failures self.old.disk) (D.failures self.new.disk) }
        ensures next { MatchResult result (λ _. self.new.next ≡ Step.SyncGate) (λ _. self.new.next ≡ Step.Failed) }
        ensures place { self.new.place ≡ self.old.place }
        ensures extent { self.new.extent ≡ self.old.extent }
        ensures form { self.new.form ≡ self.old.form }
        ensures stored { self.new.stored ≡ self.old.stored }
        ensures source { self.new.source ≡ self.old.source }
    {
        stands_for_one();
        match self.disk.write_at(self.place, &[OPEN]) {
            Ok(()) => {
                self.next = Step::SyncGate;
                Ok(())
            }
            Err(_) => {
                self.next = Step::Failed;
                Err(PutFault::Device)
            }
        }
    }

    /// Brings the open gate to the disk. The closed gate after the section is the next that a put opens.
    pub fn sync_gate(&mut self) -> Result<Receipt, PutFault>
        requires { self.old.next ≡ Step.SyncGate }
        ensures rest { (form : Form) (trees : List Content) → D.honest self.old.disk
            → IsOpened form trees (self.old.place + self.old.extent) (D.state self.old.disk)
            → OnOk result (IsRest form trees self.new.place (D.state self.new.disk)) }
        ensures synced { D.honest self.old.disk → MatchResult result
            (λ _. D.state self.new.disk ≡ after_sync (D.state self.old.disk)) (λ _. D.state self.new.disk ≡ D.state self.old.disk) }
        ensures moments { (form : Form) (trees : List Content) → D.honest self.old.disk
            → IsOpened form trees (self.old.place + self.old.extent) (D.state self.old.disk)
            → LeavesOnly (D.state self.old.disk) (D.state self.new.disk) (λ bytes. IsSections form bytes trees) }
        ensures lasting { (form : Form) → D.honest self.old.disk → LosesNothing form (D.state self.old.disk) (D.state self.new.disk) }
        ensures told { D.told_to_fail self.old.disk → IsErr result }
        ensures honest { D.honest self.old.disk ↔ D.honest self.new.disk }
        ensures device { OnlyDevice result (D.failures self.old.disk) (D.failures self.new.disk) }
        ensures next { MatchResult result (λ _. self.new.next ≡ Step.WriteBody) (λ _. self.new.next ≡ Step.Failed) }
        ensures place { MatchResult result
            (λ _. self.new.place ≡ self.old.place + self.old.extent) (λ _. self.new.place ≡ self.old.place) }
        ensures form { self.new.form ≡ self.old.form }
        ensures stored { MatchResult result
            (λ _. self.new.stored ≡ self.old.stored ++ self.old.source ∷ [])
            (λ _. self.new.stored ≡ self.old.stored) }
        ensures receipt { IfOk result (λ r. (r.source ≡ self.old.source) × (r.number ≡ length self.old.stored)) }
    {
        match self.disk.sync() {
            Ok(()) => {
                let number = self.stored.len();
                self.stored.push(self.source).unwrap();
                self.present.insert(self.source);
                self.place += self.extent;
                self.extent = 0;
                self.next = Step::WriteBody;
                Ok(Receipt::new(self.source, number))
            }
            Err(_) => {
                self.next = Step::Failed;
                Err(PutFault::Device)
            }
        }
    }
}
