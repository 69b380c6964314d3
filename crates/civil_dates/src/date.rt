//! Days of the calendar.

ghost use Rattle.std.specs.Prelude.{◌≡◌, ◌↔◌, ◌<◌, ◌≤◌, pos, neg_ℤ, ◌+ℤ◌, ◌-ℤ◌, ◌<ℤ◌, IsOk, IfOk};
ghost use Rattle.std.specs.Int.{IsInRange};
ghost use Rattle.jiff_core.specs.Calendar.{IsYear, IsDate, IsEpochDay, IsWithin, days_in_month};

use crate::fault::NoDate;
use crate::jiff_dates::{of, plain};
use jiff_core::civil;
use std::marker::Model;

/// A day of the calendar, from -9999-01-01 to 9999-12-31, by the rules of the Gregorian calendar throughout (ISO 8601).
#[derive(Clone, Copy)]
pub struct Date {
    pub(crate) year: i16,
    pub(crate) month: u8,
    pub(crate) day: u8,
    pub(crate) ghost is: { IsYear year × IsInRange 1 12 month × IsInRange 1 (days_in_month year month) day },
}

impl Model for Date {
    ghost use Rattle.jiff_core.specs.declared.civil.date.Date.{Date as PlainDate};

    ghost Value = { PlainDate };

    ghost view = { λ d. record {
      year = d.year;
      month = d.month;
      day = d.day;
      year_in = d.is.0;
      month_in = d.is.1;
      day_in = d.is.2;
    } };

    ghost inverse = { λ d. record {
      year = d.year;
      month = d.month;
      day = d.day;
      is = (d.year_in, d.month_in, d.day_in);
    } };
}

impl Date {
    ghost use Rattle.jiff_core.specs.Date.{epoch_day, weekday_of, IsYmd};

    /// The date of a year, a month from 1 to 12 and a day of the month from 1 on, if the calendar has it.
    pub fn new(year: i16, month: i8, day: i8) -> Result<Date, NoDate>
        ensures succeeds { IsOk result ↔ IsDate year month day }
        ensures value { IfOk result (IsYmd year month day) }
    {
        match civil::Date::new(year, month, day) {
            Ok(date) => Ok(of(date)),
            Err(_) => Err(NoDate),
        }
    }

    /// The year.
    pub fn year(self) -> i16
        ensures { result ≡ self.year }
    {
        self.year
    }

    /// The month, from 1 to 12.
    pub fn month(self) -> u8
        ensures { result ≡ self.month }
    {
        self.month
    }

    /// The day of the month, from 1 on.
    pub fn day(self) -> u8
        ensures { result ≡ self.day }
    {
        self.day
    }

    /// How many days after a Monday it is.
    pub fn days_from_monday(self) -> u8
        ensures value { result ≡ weekday_of self }
        ensures bound { result < 7 }
    {
        plain(self).weekday().index()
    }

    /// How many days after -9999-01-01 it is.
    pub fn days_since_min(self) -> u32
        ensures value { epoch_day self +ℤ pos 4_371_587 ≡ pos result }
        ensures bound { result ≤ 7_304_483 }
    {
        plain(self).days_since_min()
    }

    /// The next day.
    pub fn tomorrow(self) -> Result<Date, NoDate>
        ensures succeeds { IsOk result ↔ (epoch_day self <ℤ pos 2_932_896) }
        ensures value { IfOk result (λ d. epoch_day d ≡ epoch_day self +ℤ pos 1) }
    {
        match plain(self).tomorrow() {
            Ok(date) => Ok(of(date)),
            Err(_) => Err(NoDate),
        }
    }

    /// The day before.
    pub fn yesterday(self) -> Result<Date, NoDate>
        ensures succeeds { IsOk result ↔ (neg_ℤ (pos 4_371_587) <ℤ epoch_day self) }
        ensures value { IfOk result (λ d. epoch_day d ≡ epoch_day self -ℤ pos 1) }
    {
        match plain(self).yesterday() {
            Ok(date) => Ok(of(date)),
            Err(_) => Err(NoDate),
        }
    }

    /// The date `days` later, or earlier if `days` is negative.
    pub fn checked_add(self, days: i64) -> Result<Date, NoDate>
        ensures succeeds { IsOk result ↔ IsEpochDay (epoch_day self +ℤ days) }
        ensures value { IfOk result (λ d. epoch_day d ≡ epoch_day self +ℤ days) }
    {
        match plain(self).checked_add(days) {
            Ok(date) => Ok(of(date)),
            Err(_) => Err(NoDate),
        }
    }

    /// How many days `other` is later, negative if it is earlier.
    pub fn until(self, other: Date) -> i32
        ensures value { result ≡ epoch_day other -ℤ epoch_day self }
        ensures bound { IsWithin 7_304_483 result }
    {
        plain(self).until(plain(other))
    }
}
