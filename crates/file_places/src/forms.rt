//! Which texts a column takes.

use gtfs_text::{date, time, whole};

/// The most seconds of a walk or change.
const LONGEST_WALK: u32 = 86_400;

/// Which texts a column takes (docs/FORMATS.md, "the tests of a row").
#[derive(Clone, Copy)]
pub(crate) enum Form {
    /// Any but an empty one.
    Filled,
    /// A day of the calendar.
    Day,
    /// A time.
    Time,
    /// An empty one, or a time.
    TimeOrNone,
    /// A whole number.
    Whole,
    /// A whole number from 1 on.
    Positive,
    /// An empty one, or the seconds of a walk.
    WalkOrNone,
    /// One digit, between these two.
    Digit(u32, u32),
    /// An empty one, or a digit up to this one.
    DigitOrNone(u32),
}

// Whether the text is one digit between these two.
fn is_digit(text: &str, least: u32, most: u32) -> bool {
    match whole(text) {
        Some(number) => text.len() == 1 && least <= number && number <= most,
        None => false,
    }
}

// Whether the text is a whole number between these two.
fn is_number(text: &str, least: u32, most: u32) -> bool {
    match whole(text) {
        Some(number) => least <= number && number <= most,
        None => false,
    }
}

impl Form {
    /// Whether the column takes the text.
    pub(crate) fn takes(&self, text: &str) -> bool {
        match *self {
            Form::Filled => !text.is_empty(),
            Form::Day => date(text).is_some(),
            Form::Time => time(text).is_some(),
            Form::TimeOrNone => text.is_empty() || time(text).is_some(),
            Form::Whole => whole(text).is_some(),
            Form::Positive => is_number(text, 1, u32::MAX),
            Form::WalkOrNone => text.is_empty() || is_number(text, 0, LONGEST_WALK),
            Form::Digit(least, most) => is_digit(text, least, most),
            Form::DigitOrNone(most) => text.is_empty() || is_digit(text, 0, most),
        }
    }
}
