//! Begins a store in a fresh file.

ghost use Rattle.std.specs.Prelude.{◌≡◌, ◌↔◌, ◌⊎◌, ◌≤◌, ◌+◌, ◌++◌, [], ◌∷◌, ℕ, List, length, OnOk, IfOk, MatchResult};
ghost use Rattle.std.specs.Arc.{arc_value};
ghost use Rattle.disk_model.specs.Moments.{LeavesOnly};
ghost use Rattle.disk_model.specs.Disk.{Grew};
ghost use Rattle.disk_model.specs.Calls.{FailsByCalls};
ghost use Rattle.section_store.specs.Lasting.{LosesNothing, StaysTrusted};
ghost use Rattle.section_store.specs.Sections.{Form, Fits, StandsForNone, IsFresh, form_of, header, header_tail};
ghost use Rattle.section_store.specs.Store.{IsRest, IsFreshRest, IsShort, IsClosed, IsWhole, Holds};

use crate::fault::PutFault;
use crate::form::Form as FormOf;
use crate::step::Step;
use crate::stop_set::StopSet;
use crate::store::SectionStore;
use crate::version::Version;
use disk_model::laws::{cuts_add_outcomes, writes_add_outcomes};
use disk_model::{Disk, DiskFault, cut_and_sync, write_and_sync};
use std::alloc::{AllocError, Global};
use std::sync::Arc;
use timetable::{Rides, Timetable};

/// An open gate. Each other byte is a closed one.
pub const OPEN: u8 = 0xA5;

/// The name of a store, after the gate of its header. The version follows it.
pub const NAME: [u8; 7] = [84, 80, 83, 84, 79, 82, 69];

/// Cuts a fresh file to at most one byte.
fn shorten<D: Disk>(disk: &mut D) -> Result<(), DiskFault>
    requires { D.honest disk.old → IsFreshRest (D.state disk.old) }
    ensures short { D.honest disk.old → OnOk result (IsShort (D.state disk.new)) }
    ensures moments { D.honest disk.old → LeavesOnly (D.state disk.old) (D.state disk.new) IsFresh }
    ensures lasting { (form : Form) → D.honest disk.old → LosesNothing form (D.state disk.old) (D.state disk.new) }
    ensures honest { D.honest disk.old ↔ D.honest disk.new }
    ensures failed { FailsByCalls result (D.failures disk.old) (D.failures disk.new) }
{
    cuts_add_outcomes();
    match disk.len() {
        Ok(len) => {
            if len > 1 {
                cut_and_sync(disk, 1)
            } else {
                Ok(())
            }
        }
        Err(fault) => Err(fault),
    }
}

/// Closes the gate of the header.
fn close_header<D: Disk>(disk: &mut D) -> Result<(), DiskFault>
    requires { D.honest disk.old → IsShort (D.state disk.old) }
    ensures closed { D.honest disk.old → OnOk result (IsClosed (D.state disk.new)) }
    ensures moments { D.honest disk.old → LeavesOnly (D.state disk.old) (D.state disk.new) IsFresh }
    ensures lasting { (form : Form) → D.honest disk.old → LosesNothing form (D.state disk.old) (D.state disk.new) }
    ensures honest { D.honest disk.old ↔ D.honest disk.new }
    ensures failed { FailsByCalls result (D.failures disk.old) (D.failures disk.new) }
{
    writes_add_outcomes();
    write_and_sync(disk, 0, &[0])
}

/// Writes the header after its closed gate, and the first closed gate.
fn write_header<D: Disk>(disk: &mut D, rest: &[u8]) -> Result<(), DiskFault>
    requires { D.honest disk.old → IsClosed (D.state disk.old) }
    ensures whole { D.honest disk.old → OnOk result (IsWhole rest.now (D.state disk.new)) }
    ensures moments { D.honest disk.old → LeavesOnly (D.state disk.old) (D.state disk.new) IsFresh }
    ensures lasting { (form : Form) → D.honest disk.old → LosesNothing form (D.state disk.old) (D.state disk.new) }
    ensures honest { D.honest disk.old ↔ D.honest disk.new }
    ensures failed { FailsByCalls result (D.failures disk.old) (D.failures disk.new) }
{
    writes_add_outcomes();
    write_and_sync(disk, 1, rest)
}

/// Opens the gate of the header.
fn open_header<D: Disk>(disk: &mut D) -> Result<(), DiskFault>
    ensures rest { (form : Form) → Fits form → D.honest disk.old → IsWhole (header_tail form ++ 0 ∷ []) (D.state disk.old)
        → OnOk result (IsRest form [] (length (header form)) (D.state disk.new)) }
    ensures moments { (form : Form) → Fits form → D.honest disk.old → IsWhole (header_tail form ++ 0 ∷ []) (D.state disk.old)
        → LeavesOnly (D.state disk.old) (D.state disk.new) (StandsForNone form) }
    ensures lasting { (form : Form) (rest : List ℕ) → D.honest disk.old → IsWhole rest (D.state disk.old)
        → LosesNothing form (D.state disk.old) (D.state disk.new) }
    ensures honest { D.honest disk.old ↔ D.honest disk.new }
    ensures failed { FailsByCalls result (D.failures disk.old) (D.failures disk.new) }
{
    writes_add_outcomes();
    write_and_sync(disk, 0, &[OPEN])
}

// The four steps, one after the other.
fn begin_file<D: Disk>(disk: &mut D, rest: &[u8]) -> Result<(), DiskFault>
    requires { D.honest disk.old → IsFreshRest (D.state disk.old) }
    ensures rest { (form : Form) → Fits form → D.honest disk.old → rest.now ≡ header_tail form ++ 0 ∷ []
        → OnOk result (IsRest form [] (length (header form)) (D.state disk.new)) }
    ensures moments { (form : Form) → Fits form → D.honest disk.old → rest.now ≡ header_tail form ++ 0 ∷ []
        → LeavesOnly (D.state disk.old) (D.state disk.new) (StandsForNone form) }
    ensures lasting { (form : Form) → D.honest disk.old → LosesNothing form (D.state disk.old) (D.state disk.new) }
    ensures honest { D.honest disk.old ↔ D.honest disk.new }
    ensures failed { FailsByCalls result (D.failures disk.old) (D.failures disk.new) }
{
    shorten(disk)?;
    close_header(disk)?;
    write_header(disk, rest)?;
    open_header(disk)
}

/// The bytes of a store without trees after its first gate: the rest of its header, and a closed gate.
#[tactic(auto, unfolding(crate::specs::Sections::header_tail))]
pub fn rest_of_header(alloc: Global, table: &Timetable, rides: Rides) -> Result<Vec<u8>, AllocError>
    ensures { IfOk result (λ bytes. bytes.items ≡ header_tail (form_of table.now rides) ++ 0 ∷ []) }
{
    let version = Version::Second;
    let width = version.width();
    let mut bytes = Vec::from_array(alloc, NAME)?;
    bytes.extend_from_slice(&[version.byte(), rides.number()])?;
    bytes.extend_from_slice(&table.canonical_len(width).to_be_bytes())?;
    table.write_canonical(width, &mut bytes)?;
    bytes.push(0)?;
    Ok(bytes)
}

/// Begins a store of trees of that timetable and for journeys of at most `rides` rides, in a fresh file. The file is made shorter if need
/// be. A crash at any moment leaves a file that stands for no trees. What a read gives and what a crash leaves must be one and the same
/// fresh file, as after a sync. The disk comes back with each fault: `Memory`, which comes before any call of the disk, or `Device`. A
/// trusted disk stays trusted.
pub fn begin<D: Disk>(
    alloc: Global,
    disk: D,
    table: &Arc<Timetable>,
    rides: Rides,
) -> Result<SectionStore<D>, (PutFault, D)>
    requires { D.honest disk → IsFreshRest (D.state disk) }
    ensures holds { D.honest disk → IfOk result (λ store.
        Holds (form_of (arc_value table.now) rides) [] store.place store.stored (D.state store.disk)) }
    ensures moments { D.honest disk → MatchResult result
        (λ store. LeavesOnly (D.state disk) (D.state store.disk) (StandsForNone (form_of (arc_value table.now) rides)))
        (λ e. LeavesOnly (D.state disk) (D.state e.1) (StandsForNone (form_of (arc_value table.now) rides))) }
    ensures lasting { D.honest disk → MatchResult result
        (λ store. LosesNothing (form_of (arc_value table.now) rides) (D.state disk) (D.state store.disk))
        (λ e. LosesNothing (form_of (arc_value table.now) rides) (D.state disk) (D.state e.1)) }
    ensures trusted { D.honest disk → MatchResult result
        (λ store. StaysTrusted (form_of (arc_value table.now) rides) (D.state disk) (D.state store.disk))
        (λ e. StaysTrusted (form_of (arc_value table.now) rides) (D.state disk) (D.state e.1)) }
    ensures honest { MatchResult result (λ store. D.honest disk ↔ D.honest store.disk) (λ e. D.honest disk ↔ D.honest e.1) }
    ensures cause { MatchResult result (λ store. D.failures store.disk ≡ D.failures disk)
        (λ e. ((e.0 ≡ PutFault.Memory) × (e.1 ≡ disk)) ⊎ ((e.0 ≡ PutFault.Device) × Grew (D.failures disk) (D.failures e.1))) }
    ensures ready { IfOk result (λ store. (store.next ≡ Step.WriteBody) × (store.form ≡ form_of (arc_value table.now) rides)) }
    ensures stored { IfOk result (λ store. store.stored ≡ []) }
{
    let Ok(kept) = Arc::try_clone(table) else {
        return Err((PutFault::Memory, disk));
    };
    let Ok(rest) = rest_of_header(alloc, table, rides) else {
        return Err((PutFault::Memory, disk));
    };
    let Ok(present) = StopSet::of(alloc, table.stops(), &[]) else {
        return Err((PutFault::Memory, disk));
    };
    let mut disk = disk;
    match begin_file(&mut disk, &rest) {
        Ok(()) => Ok(SectionStore::resume(
            alloc,
            disk,
            FormOf::new(kept, rides),
            Vec::new(alloc),
            present,
            rest.len() as u64,
        )),
        Err(_) => Err((PutFault::Device, disk)),
    }
}
