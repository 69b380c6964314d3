//! The code and the name of a fault.

ghost use Rattle.std.specs.Prelude.{◌≡◌};
ghost use Rattle.std.specs.Fmt.{WritesOnOk};
ghost use Rattle.faults.specs.Texts.{days_text, fault_text, feed_text, file_text, kind_text, store_text};

use crate::fault::Fault;
use crate::migrating::write_migration;
use crate::parting::{write_other_tree, write_part};
use gtfs_tables::{FaultKind, FeedFault, FeedFile};
use service_days::DayFault;
use std::fmt;
use store_faults::RecoverFault;

// The code and the name of a kind of fault of a feed.
fn kind_name(kind: FaultKind) -> &'static str
    ensures { result.now ≡ kind_text kind }
{
    match kind {
        FaultKind::MissingFile => "F1 MissingFile",
        FaultKind::MissingColumn => "F2 MissingColumn",
        FaultKind::BadField => "F3 BadField",
        FaultKind::DuplicateKey => "F4 DuplicateKey",
        FaultKind::UnknownReference => "F5 UnknownReference",
        FaultKind::TimesDecrease => "F6 TimesDecrease",
        FaultKind::TooMany => "F7 TooMany",
        FaultKind::BadCsv => "F8 BadCsv",
        FaultKind::ReadFailed => "F9 ReadFailed",
        FaultKind::EndTimeMissing => "F10 EndTimeMissing",
        FaultKind::Memory => "F11 Memory",
    }
}

/// The name of a file of a feed.
pub fn file_name(file: FeedFile) -> &'static str
    ensures { result.now ≡ file_text file }
{
    match file {
        FeedFile::Stops => "stops.txt",
        FeedFile::Trips => "trips.txt",
        FeedFile::Calendar => "calendar.txt",
        FeedFile::CalendarDates => "calendar_dates.txt",
        FeedFile::StopTimes => "stop_times.txt",
        FeedFile::Transfers => "transfers.txt",
        FeedFile::Frequencies => "frequencies.txt",
    }
}

// The code and the name of a fault of the covered days.
fn days_name(fault: &DayFault) -> &'static str
    ensures { result.now ≡ days_text fault.now }
{
    match fault {
        DayFault::BadRange => "S1 BadRange",
        DayFault::BadZone => "S2 BadZone",
        DayFault::ZoneJump => "S3 ZoneJump",
        DayFault::Memory => "S4 Memory",
    }
}

// A fault of a feed, with the file and the row.
fn write_feed<W: fmt::Write>(f: &mut fmt::Formatter<W>, fault: &FeedFault) -> fmt::Result
    ensures { WritesOnOk W.write_str_gives f.old result (feed_text fault.now) f.new }
{
    let kind = kind_name(fault.kind);
    let file = file_name(fault.file);
    write!(f, "{kind} {file} row {}", fault.row)
}

/// Writes a fault of a store's file.
pub(crate) fn write_store<W: fmt::Write>(
    f: &mut fmt::Formatter<W>,
    fault: &RecoverFault,
) -> fmt::Result
    ensures { WritesOnOk W.write_str_gives f.old result (store_text fault.now) f.new }
{
    match fault {
        RecoverFault::NotAStore => write!(f, "Z1 NotAStore"),
        RecoverFault::OldVersion => write!(f, "Z7 OldVersion"),
        RecoverFault::OtherTimetable => write!(f, "Z2 OtherTimetable"),
        RecoverFault::OtherRides => write!(f, "Z3 OtherRides"),
        RecoverFault::Damaged(number) => write!(f, "Z4 Damaged {number}"),
        RecoverFault::Device => write!(f, "Z5 Device"),
        RecoverFault::Memory => write!(f, "Z6 Memory"),
    }
}

/// Writes the code and the name of a fault, with what it is about.
pub(crate) fn write_fault<W: fmt::Write>(
    f: &mut fmt::Formatter<W>,
    fault: &Fault<'_>,
) -> fmt::Result
    ensures { WritesOnOk W.write_str_gives f.old result (fault_text fault.now) f.new }
{
    match fault {
        Fault::BadDate => write!(f, "A1 BadDate"),
        Fault::BadTime => write!(f, "A2 BadTime"),
        Fault::NoRandomness => write!(f, "NoRandomness"),
        Fault::Feed(fault) => write_feed(f, fault),
        Fault::Days(fault) => write!(f, "{}", days_name(fault)),
        Fault::Store(fault) => write_store(f, fault),
        Fault::GateDamaged => write!(f, "Z1 NotAStore"),
        Fault::StoreInUse => write!(f, "Z5 Device"),
        Fault::PutFailed => write!(f, "P3 Device"),
        Fault::Migration(side, fault) => write_migration(f, *side, fault),
        Fault::OtherList => write!(f, "M1 OtherList"),
        Fault::FileTooLarge => write!(f, "P2 TooLarge"),
        Fault::Part(path, fault) => write_part(f, path, fault),
        Fault::OtherTree { stop, part, before } => write_other_tree(f, stop, part, before),
        Fault::Question(refusal) => write!(f, "{refusal}"),
        Fault::TooLarge => write!(f, "N1 TooLarge"),
        Fault::Memory => write!(f, "Memory"),
    }
}
