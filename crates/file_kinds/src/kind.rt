//! What a file is, before it is opened as a store.

ghost use Rattle.std.specs.Prelude.{◌≡◌, ◌↔◌, ◌≢◌, ◌⊎◌, ◌≤◌, ◌<◌, IsTrue, IfOk, MatchBool, length, get_or};
ghost use Rattle.disk_model.specs.Calls.{FailsByCalls, FailsByReads};
ghost use Rattle.section_store.specs.Beginnings.{CanBegin, IsLeftOf, IsUnfinished};
ghost use Rattle.section_store.specs.Sections.{IsFresh, form_of, open_gate};
ghost use Rattle.file_kinds.specs.Kinds.{IsNamedAfterGate, IsOfKind};

use disk_model::{Disk, DiskFault, ReadFault, read_up_to};
use section_store::{NAME, OPEN, rest_of_header};
use std::alloc::Global;
use timetable::{Rides, Timetable};

// How many bytes a file has that isn't fresh, at least.
const SHORTEST: usize = 15;

// How many bytes a file has up to the end of a store's name.
const NAMED: usize = 8;

/// What a file is to a store that is to be opened in it.
#[derive(Clone, Copy, Debug, PartialEq, Eq)]
pub enum FileKind {
    /// A store may be begun in it: it is empty, or a beginning that was stopped may have left it.
    New,
    /// It begins with an open gate, and is no shorter than a store. Only an opening says what it is.
    Old,
    /// A store's name stands after a gate that isn't open, and no beginning has left it so: the first byte was damaged.
    GateDamaged,
    /// It is something else, which was never a store.
    Foreign,
}

// Whether a write of `whole` that was stopped may have left these bytes.
fn is_left_of(left: &[u8], whole: &[u8]) -> bool
    ensures { IsTrue result ↔ IsLeftOf whole.now left.now }
{
    if left.len() > whole.len() {
        return false;
    }
    for (i, byte) in left.iter().enumerate() {
        if *byte != 0 && *byte != whole[i] {
            return false;
        }
    }
    true
}

// Whether a beginning that writes `whole` after the gate may have left these bytes.
fn is_unfinished(bytes: &[u8], whole: &[u8]) -> bool
    ensures { IsTrue result ↔ IsUnfinished whole.now bytes.now }
{
    match bytes {
        [] => true,
        [gate, rest @ ..] => {
            let closed = *gate == 0 || (*gate == OPEN && rest.len() < SHORTEST - 1);
            closed && is_left_of(rest, whole)
        }
    }
}

// Whether the first bytes of a file have a store's name after a gate that isn't open.
fn is_named(head: &[u8]) -> bool
    ensures { IsTrue result ↔ IsNamedAfterGate head.now }
{
    if head.len() < NAMED {
        return false;
    }
    head[0] != OPEN && &head[1..NAMED] == NAME.as_slice()
}

// Whether a store of that timetable and rides may be begun in the file, which has `end` bytes. They are read into `piece`.
fn can_begin<D: Disk>(
    alloc: Global,
    disk: &mut D,
    end: u64,
    table: &Timetable,
    rides: Rides,
    piece: &mut Vec<u8>,
) -> Result<bool, ReadFault>
    requires { D.honest disk.old → end ≡ length (D.state disk.old).read }
    ensures honest { D.honest disk.old ↔ D.honest disk.new }
    ensures same { D.honest disk.old → D.state disk.new ≡ D.state disk.old }
    ensures can { D.honest disk.old
        → IfOk result (λ can. IsTrue can ↔ CanBegin (form_of table.now rides) (D.state disk.old).read) }
    ensures failed { FailsByReads result (D.failures disk.old) (D.failures disk.new) }
{
    let Ok(whole) = rest_of_header(alloc, table, rides) else {
        return Err(ReadFault::Memory);
    };
    if end > 1 + whole.len() as u64 {
        return Ok(false);
    }
    read_up_to(disk, 0, end, piece)?;
    Ok(is_unfinished(piece, &whole))
}

// Whether these first bytes are those of a file that isn't fresh.
fn is_old(head: &[u8]) -> bool
    ensures { MatchBool result ((15 ≤ length head.now) × (get_or head.now 0 0 ≡ open_gate))
        ((length head.now < 15) ⊎ (get_or head.now 0 0 ≢ open_gate)) }
{
    head.len() >= SHORTEST && head[0] == OPEN
}

/// Whether the file of a disk begins with an open gate and is no shorter than a store. Opening it as a store writes nothing then, so a disk
/// that only reads will do. It takes no memory.
pub fn is_begun<D: Disk>(disk: &mut D) -> Result<bool, DiskFault>
    ensures honest { D.honest disk.old ↔ D.honest disk.new }
    ensures same { D.honest disk.old → D.state disk.new ≡ D.state disk.old }
    ensures begun { D.honest disk.old → IfOk result (λ begun. IsTrue begun ↔ ¬ IsFresh (D.state disk.old).read) }
    ensures failed { FailsByCalls result (D.failures disk.old) (D.failures disk.new) }
{
    if disk.len()? < SHORTEST as u64 {
        return Ok(false);
    }
    let mut gate = [0];
    disk.read_at(0, &mut gate)?;
    Ok(gate[0] == OPEN)
}

/// What the file of a disk is to a store of that timetable, and of journeys of at most `rides` rides. Nothing is written. A program that
/// opens a store only in a file that is `New` or `Old` spoils no file of another program. If the file isn't `Old`, memory is taken for the
/// bytes of a store without trees.
pub fn file_kind<D: Disk>(
    alloc: Global,
    disk: &mut D,
    table: &Timetable,
    rides: Rides,
) -> Result<FileKind, ReadFault>
    ensures honest { D.honest disk.old ↔ D.honest disk.new }
    ensures same { D.honest disk.old → D.state disk.new ≡ D.state disk.old }
    ensures kind { D.honest disk.old → IfOk result (IsOfKind (form_of table.now rides) (D.state disk.old).read) }
    ensures failed { FailsByReads result (D.failures disk.old) (D.failures disk.new) }
{
    let mut piece = Vec::new(alloc);
    let Ok(end) = disk.len() else {
        return Err(ReadFault::Failed);
    };
    read_up_to(disk, 0, SHORTEST as u64, &mut piece)?;
    if is_old(&piece) {
        return Ok(FileKind::Old);
    }
    let named = is_named(&piece);
    match can_begin(alloc, disk, end, table, rides, &mut piece) {
        Err(fault) => Err(fault),
        Ok(true) => Ok(FileKind::New),
        Ok(false) if named => Ok(FileKind::GateDamaged),
        Ok(false) => Ok(FileKind::Foreign),
    }
}
