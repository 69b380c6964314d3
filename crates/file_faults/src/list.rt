//! The faults of a feed, as they are found.

ghost use Rattle.std.specs.Prelude.{◌≡◌, ◌⊎◌, [], ◌∷◌, Option, Some, IfOk, OnOk, false, true, option_map, option_to_list};
ghost use Rattle.gtfs_rows.specs.declared.fault.FaultKind.TheVariants as kinds;
ghost use Rattle.gtfs_rows.specs.declared.fault.FeedFault.{FeedFault as FaultData};
ghost use Rattle.gtfs_rows.specs.Faults.{Explains, fault_at, first_fault};
ghost use Rattle.file_faults.specs.Lists.{Adds, HasFaults, is_memory, is_unread};
ghost use Rattle.file_faults.specs.Tables.{fits, size_test};

use gtfs_rows::{FaultKind, FeedFault, FeedFile, ROW_LIMIT};
use gtfs_text::Sheet;
use std::alloc::{AllocError, Global};

/// The most faults that are kept.
pub const FAULT_LIMIT: usize = 1_000;

/// Faults of a feed in their order: the first ones, and how many more there are.
#[derive(Drop)]
pub struct FaultList {
    /// At most `FAULT_LIMIT`.
    pub faults: Vec<FeedFault>,
    /// How many faults come after those.
    pub more: usize,
    /// Whether the reader of a file failed, so that nothing is known of the rest of that file.
    pub unread: bool,
}

// Whether a fault is want of memory.
fn is_memory(kind: FaultKind) -> bool
    ensures { result ≡ is_memory kind }
{
    match kind {
        FaultKind::Memory => true,
        _ => false,
    }
}

// Whether a fault is that of a reader that failed.
fn is_unread(kind: FaultKind) -> bool
    ensures { result ≡ is_unread kind }
{
    match kind {
        FaultKind::ReadFailed => true,
        _ => false,
    }
}

/// The fault of a row, if it has one of this kind.
pub(crate) fn fault_of(kind: Option<FaultKind>, file: FeedFile, row: usize) -> Option<FeedFault>
    ensures { result ≡ option_map (λ kind. fault_at kind file row) kind }
{
    match kind {
        Some(kind) => Some(FeedFault::new(kind, file, row)),
        None => None,
    }
}

/// The fault that a row was found to have. One that isn't that of a test is want of memory.
pub(crate) fn found(fault: FeedFault) -> Result<Option<FeedFault>, AllocError>
    ensures found { (first : Option FaultData) → Explains first fault.kind fault → IfOk result (λ found. found ≡ first) }
    ensures fails { (first : Option FaultData) → Explains first fault.kind fault → OnOk result (first ≡ Some fault) }
{
    if is_memory(fault.kind) || is_unread(fault.kind) {
        return Err(AllocError);
    }
    Ok(Some(fault))
}

impl FaultList {
    /// A list without a fault.
    pub fn new(alloc: Global) -> FaultList
        ensures faults { HasFaults result [] }
        ensures unread { result.unread ≡ false }
    {
        FaultList {
            faults: Vec::new(alloc),
            more: 0,
            unread: false,
        }
    }

    // Adds a fault: it is kept if there is room, and else counted.
    fn keep(&mut self, fault: FeedFault) -> Result<(), AllocError>
        ensures { OnOk result (Adds self.old self.new (fault ∷ [])) }
    {
        if self.faults.len() < FAULT_LIMIT {
            self.faults.push(fault)?;
            return Ok(());
        }
        self.more = self.more.saturating_add(1);
        Ok(())
    }

    /// Adds the fault that was found, if one was. It fails only if memory ran out.
    pub fn add_found(&mut self, found: Option<FeedFault>) -> Result<(), AllocError>
        ensures { OnOk result (Adds self.old self.new (option_to_list found)) }
    {
        match found {
            Some(fault) => self.keep(fault),
            None => Ok(()),
        }
    }

    /// Adds the fault of a file that lacks a column.
    pub(crate) fn add_lacking(&mut self, file: FeedFile) -> Result<(), AllocError>
        ensures { OnOk result (Adds self.old self.new (fault_at kinds.MissingColumn file 0 ∷ [])) }
    {
        self.keep(FeedFault::new(FaultKind::MissingColumn, file, 0))
    }

    /// Adds the fault of a file with too many rows, or that is too large by another count. It says whether the file has no such fault.
    pub(crate) fn add_size(
        &mut self,
        sheet: &Sheet,
        file: FeedFile,
        is_small: bool,
    ) -> Result<bool, AllocError>
        ensures adds { OnOk result (Adds self.old self.new (option_to_list (first_fault (size_test file is_small sheet.now ∷ [])))) }
        ensures fits { IfOk result (λ small. small ≡ fits is_small sheet.now) }
    {
        let fits = sheet.rows() <= ROW_LIMIT && is_small;
        if !fits {
            self.keep(FeedFault::new(FaultKind::TooMany, file, 0))?;
        }
        Ok(fits)
    }

    // Adds the fault of a reader that failed.
    fn add_unread(&mut self, fault: FeedFault) -> Result<(), AllocError>
        ensures { OnOk result (self.new.unread ≡ true) }
    {
        self.unread = true;
        self.keep(fault)
    }

    /// Adds the fault of a file that wasn't opened. It fails if that is want of memory, or if memory ran out.
    pub fn add_unopened(&mut self, fault: FeedFault) -> Result<(), AllocError>
        ensures { (first : Option FaultData) → Explains first fault.kind fault
            → OnOk result ((self.new.unread ≡ true) ⊎ ((first ≡ Some fault) × Adds self.old self.new (fault ∷ []))) }
    {
        if is_memory(fault.kind) {
            return Err(AllocError);
        }
        if is_unread(fault.kind) {
            return self.add_unread(fault);
        }
        self.keep(fault)
    }
}
