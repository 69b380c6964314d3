//! Faults of the two files of a migration.

ghost use Rattle.std.specs.Prelude.{◌≡◌, option_map};
ghost use Rattle.std.specs.Fmt.{WritesOnOk};
ghost use Rattle.faults.specs.Advice.{migration_advice, new_advice, old_advice};
ghost use Rattle.faults.specs.Faults.{in_migration, of_migrated};
ghost use Rattle.faults.specs.Texts.{migration_text, store_fault_text};

use crate::advice::{DAMAGED, DEVICE, GATE_DAMAGED, IN_USE};
use crate::fault::Fault;
use crate::texts::write_store;
use std::fmt;
use store_faults::RecoverFault;

/// One of the two files of a migration.
#[derive(Clone, Copy)]
pub enum Side {
    /// The file of the version before.
    Old,
    /// The file into which its trees are taken over.
    New,
}

/// Why a file isn't used as a store.
#[derive(Clone, Copy)]
pub enum StoreFault {
    /// It isn't the store of this timetable and these rides, or is damaged, or the system refused it.
    Recover(RecoverFault),
    /// Its first byte is damaged.
    GateDamaged,
    /// Another process holds it.
    InUse,
    /// A read gave other bytes than before.
    Changed,
}

pub const OLD_NOT_A_STORE: &str =
    "The file that --store names is no store of the version before, and was left as it is. A store of this version is used as it is.";

pub const NEW_NOT_A_STORE: &str =
    "The file that --to names is no store of this program, and was left as it is: name another, or remove it if you don't need it.";

pub const NEW_OLD_VERSION: &str =
    "The file that --to names is a store of the version before, and was left as it is: name another.";

pub const MIGRATED_TIMETABLE: &str =
    "That store was built from another feed or with another --date, --days, --zone or --default-walk: give those of the build.";

pub const MIGRATED_RIDES: &str =
    "That store was built with another --rides: give that of the build.";

pub const OLD_DEVICE: &str =
    "The file that --store names can't be read: see that it is there, and that you may read it.";

pub const NEW_DAMAGED: &str =
    "The file that --to names is damaged from the section of that number on, counted from 0: delete it and migrate again.";

pub const OTHER_LIST: &str =
    "The trees of the file that --to names aren't the first ones of the old store, so nothing was stored: name another, or delete it.";

pub const FILE_TOO_LARGE: &str =
    "The new file would be too large with one more tree. What was stored before stands.";

pub const CHANGED: &str =
    "That file gave other bytes than before: see that nothing else writes it, and run the same command again.";

// What to do about a fault of the file of the version before.
fn old_advice(fault: &RecoverFault) -> Option<&'static str>
    ensures { option_map (λ text. text.now) result ≡ old_advice fault.now }
{
    match fault {
        RecoverFault::NotAStore => Some(OLD_NOT_A_STORE),
        RecoverFault::OtherTimetable => Some(MIGRATED_TIMETABLE),
        RecoverFault::OtherRides => Some(MIGRATED_RIDES),
        RecoverFault::Damaged(_) => Some(DAMAGED),
        RecoverFault::Device => Some(OLD_DEVICE),
        RecoverFault::OldVersion | RecoverFault::Memory => None,
    }
}

// What to do about a fault of the file into which trees are taken over.
fn new_advice(fault: &RecoverFault) -> Option<&'static str>
    ensures { option_map (λ text. text.now) result ≡ new_advice fault.now }
{
    match fault {
        RecoverFault::NotAStore => Some(NEW_NOT_A_STORE),
        RecoverFault::OldVersion => Some(NEW_OLD_VERSION),
        RecoverFault::OtherTimetable => Some(MIGRATED_TIMETABLE),
        RecoverFault::OtherRides => Some(MIGRATED_RIDES),
        RecoverFault::Damaged(_) => Some(NEW_DAMAGED),
        RecoverFault::Device => Some(DEVICE),
        RecoverFault::Memory => None,
    }
}

/// What to do about a file that isn't used in a migration.
pub(crate) fn migration_advice(side: Side, fault: &StoreFault) -> Option<&'static str>
    ensures { option_map (λ text. text.now) result ≡ migration_advice side fault.now }
{
    match fault {
        StoreFault::GateDamaged => Some(GATE_DAMAGED),
        StoreFault::InUse => Some(IN_USE),
        StoreFault::Changed => Some(CHANGED),
        StoreFault::Recover(fault) => match side {
            Side::Old => old_advice(fault),
            Side::New => new_advice(fault),
        },
    }
}

/// Writes why a file isn't used as a store.
pub(crate) fn write_cause<W: fmt::Write>(
    f: &mut fmt::Formatter<W>,
    fault: &StoreFault,
) -> fmt::Result
    ensures { WritesOnOk W.write_str_gives f.old result (store_fault_text fault.now) f.new }
{
    match fault {
        StoreFault::Recover(fault) => write_store(f, fault),
        StoreFault::GateDamaged => write!(f, "Z1 NotAStore"),
        StoreFault::InUse => write!(f, "Z5 Device"),
        StoreFault::Changed => write!(f, "Z8 Changed"),
    }
}

/// Writes which file of a migration isn't used, and why.
pub(crate) fn write_migration<W: fmt::Write>(
    f: &mut fmt::Formatter<W>,
    side: Side,
    fault: &StoreFault,
) -> fmt::Result
    ensures { WritesOnOk W.write_str_gives f.old result (migration_text side fault.now) f.new }
{
    match side {
        Side::Old => write!(f, "old ")?,
        Side::New => write!(f, "new ")?,
    }
    write_cause(f, fault)
}

/// Why one of the two files of a migration isn't used, as recovery reports it. Want of memory is nobody's.
pub fn of_migrated<'a>(side: Side, fault: RecoverFault) -> Fault<'a>
    ensures { result ≡ of_migrated side fault }
{
    match fault {
        RecoverFault::Memory => Fault::Memory,
        _ => Fault::Migration(side, StoreFault::Recover(fault)),
    }
}

/// A fault of a store's file, if it is one of the two of a migration. Any other fault is as it was.
pub fn in_migration<'a>(side: Side, fault: Fault<'a>) -> Fault<'a>
    ensures { result ≡ in_migration side fault.entry }
{
    match fault {
        Fault::Store(fault) => Fault::Migration(side, StoreFault::Recover(fault)),
        Fault::GateDamaged => Fault::Migration(side, StoreFault::GateDamaged),
        Fault::StoreInUse => Fault::Migration(side, StoreFault::InUse),
        _ => fault,
    }
}
