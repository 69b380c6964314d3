//! What to do about a fault.

ghost use Rattle.std.specs.Prelude.{◌≡◌, option_map};
ghost use Rattle.faults.specs.Advice.{advice_of, days_advice, question_advice, store_advice};

use crate::fault::Fault;
use crate::migrating::{FILE_TOO_LARGE, OTHER_LIST, migration_advice};
use crate::parting::{OTHER_TREE, part_advice};
use pattern_query::Refusal;
use service_days::DayFault;
use store_faults::RecoverFault;

pub const BAD_DATE: &str =
    "--date, --on and --until-on take a day of the calendar, YYYYMMDD, as 20240102.";

pub const BAD_TIME: &str = "--at and --until take a time up to 167:59:59, HH:MM:SS, as 08:00:00.";

pub const BAD_RANGE: &str =
    "--days is 1 to 14, and the covered days lie from 1900-01-01 to 9998-12-31.";

pub const NO_RANDOMNESS: &str =
    "The system gives no randomness, without which ids aren't looked up: nothing of the feed was read.";

pub const NOT_A_STORE: &str =
    "The file is no store of this program, and was left as it is: name another with --store, or remove it if you don't need it.";

pub const OLD_VERSION: &str =
    "The store is of the version before: `tp migrate --store OLD --to NEW`, with the same options, takes its trees over into a new file.";

pub const GATE_DAMAGED: &str =
    "The file is a store whose first byte is damaged, and was left as it is: put the byte A5 (hexadecimal) back there, or delete the file \
and run `tp build`.";

pub const OTHER_TIMETABLE: &str =
    "The store was built from another feed or with another --date, --days, --zone or --default-walk: \
give those of the build, or run `tp build` with yours and another --store.";

pub const OTHER_RIDES: &str =
    "The store was built with another --rides: give that of the build, or run `tp build` with yours and another --store.";

pub const DAMAGED: &str =
    "The file is damaged from the section of that number on, counted from 0: delete it and run `tp build` again.";

pub const DEVICE: &str =
    "The file can't be made, read or written: see that its folder is there, and that you may write to it.";

pub const IN_USE: &str = "Another process has the store open: wait until it ends.";

pub const PUT_FAILED: &str =
    "The file can't be written. What was stored before stands: make room and run the same command again.";

pub const NOT_COVERED: &str =
    "The time isn't within the covered days: give more --days, or another --date.";

pub const NOT_STORED: &str =
    "The store lacks the tree of that stop: run `tp build` with the same options first.";

// What to do about a fault of the covered days.
fn days_advice(fault: &DayFault) -> Option<&'static str>
    ensures { option_map (λ text. text.now) result ≡ days_advice fault.now }
{
    match fault {
        DayFault::BadRange => Some(BAD_RANGE),
        DayFault::BadZone | DayFault::ZoneJump | DayFault::Memory => None,
    }
}

// What to do about a fault of a store's file.
fn store_advice(fault: &RecoverFault) -> Option<&'static str>
    ensures { option_map (λ text. text.now) result ≡ store_advice fault.now }
{
    match fault {
        RecoverFault::NotAStore => Some(NOT_A_STORE),
        RecoverFault::OldVersion => Some(OLD_VERSION),
        RecoverFault::OtherTimetable => Some(OTHER_TIMETABLE),
        RecoverFault::OtherRides => Some(OTHER_RIDES),
        RecoverFault::Damaged(_) => Some(DAMAGED),
        RecoverFault::Device => Some(DEVICE),
        RecoverFault::Memory => None,
    }
}

// What to do about the refusal of a question.
fn question_advice(refusal: &Refusal<'_>) -> Option<&'static str>
    ensures { option_map (λ text. text.now) result ≡ question_advice refusal.now }
{
    match refusal {
        Refusal::UnknownStop(_) => None,
        Refusal::NotCovered => Some(NOT_COVERED),
        Refusal::NotStored(_) => Some(NOT_STORED),
    }
}

/// What the fault means and what to do about it, as a line to print below it; none if there is nothing to say.
pub(crate) fn advice_of(fault: &Fault<'_>) -> Option<&'static str>
    ensures { option_map (λ text. text.now) result ≡ advice_of fault.now }
{
    match fault {
        Fault::BadDate => Some(BAD_DATE),
        Fault::BadTime => Some(BAD_TIME),
        Fault::NoRandomness => Some(NO_RANDOMNESS),
        Fault::Days(fault) => days_advice(fault),
        Fault::Store(fault) => store_advice(fault),
        Fault::GateDamaged => Some(GATE_DAMAGED),
        Fault::StoreInUse => Some(IN_USE),
        Fault::PutFailed => Some(PUT_FAILED),
        Fault::Migration(side, fault) => migration_advice(*side, fault),
        Fault::OtherList => Some(OTHER_LIST),
        Fault::FileTooLarge => Some(FILE_TOO_LARGE),
        Fault::Part(_, fault) => part_advice(fault),
        Fault::OtherTree { .. } => Some(OTHER_TREE),
        Fault::Question(refusal) => question_advice(refusal),
        _ => None,
    }
}
