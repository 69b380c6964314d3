//! Dates of the crate jiff_core.

ghost use Rattle.std.specs.Prelude.{◌≡◌};

use crate::date::Date;
use jiff_core::civil;

/// The same date as one of this crate.
pub(crate) fn of(date: civil::Date) -> Date
    ensures { result ≡ date }
{
    Date {
        year: date.year,
        month: date.month,
        day: date.day,
    }
}

/// The same date as one of jiff_core.
pub fn plain(date: Date) -> civil::Date
    ensures { result ≡ date }
{
    civil::Date {
        year: date.year,
        month: date.month,
        day: date.day,
    }
}
