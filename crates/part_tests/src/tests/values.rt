//! The values of texts, and the texts of faults that no program prints.

use civil_dates::Date;
use gtfs_text::{date, time, whole};
use pattern_tree::TreeFault;
use service_days::DayFault;
use std::alloc::{AllocError, Global};
use std::fmt::Display;
use std::test::Fail;

const NUMBERS: [(&str, Option<u32>); 9] = [
    ("0", Some(0)),
    ("007", Some(7)),
    ("999999999", Some(999_999_999)),
    ("1000000000", None),
    ("", None),
    ("+1", None),
    ("1.0", None),
    (" 1", None),
    ("１", None),
];

const TIMES: [(&str, Option<u32>); 11] = [
    ("00:00:00", Some(0)),
    ("8:00:00", Some(28_800)),
    ("08:12:30", Some(29_550)),
    ("167:59:59", Some(604_799)),
    ("168:00:00", None),
    ("0008:00:00", None),
    ("08:60:00", None),
    ("08:00:60", None),
    ("8:0:00", None),
    ("08:00:00 ", None),
    ("０8:00:00", None),
];

// Each date with its year, month and day.
const DATES: [(&str, Option<(i16, u8, u8)>); 10] = [
    ("20240229", Some((2024, 2, 29))),
    ("00000229", Some((0, 2, 29))),
    ("99991231", Some((9999, 12, 31))),
    ("20230229", None),
    ("19000229", None),
    ("20240431", None),
    ("20241301", None),
    ("20240100", None),
    ("202401011", None),
    ("２0240101", None),
];

// The year, the month and the day of a date.
fn parts_of(date: Date) -> (i16, u8, u8) {
    (date.year(), date.month(), date.day())
}

// Whether all three readings of texts give what they should.
fn are_right() -> bool {
    NUMBERS.iter().all(|(text, number)| whole(text) == *number)
        && TIMES.iter().all(|(text, seconds)| time(text) == *seconds)
        && DATES
            .iter()
            .all(|(text, day)| date(text).map(parts_of) == *day)
}

#[test]
fn values_of_texts(rt: HostRuntime) {
    assert!(rt; are_right());
}

// Whether a fault is shown as that text.
fn is_shown<T: Display>(alloc: Global, fault: &T, text: &str) -> Result<bool, AllocError> {
    Ok(fault.to_string(alloc)?.as_str() == text)
}

#[test]
fn texts_of_faults(rt: HostRuntime) -> Result<(), Fail> {
    assert!(rt; is_shown(rt.alloc(), &DayFault::Memory, "S4 Memory")?);
    assert!(rt; is_shown(rt.alloc(), &TreeFault::TooLarge, "N1 TooLarge")?);
    assert!(rt; is_shown(rt.alloc(), &TreeFault::Memory, "N2 Memory")?);
    Ok(())
}
