//! Moments as the program prints them.
ghost use Rattle.std.specs.Prelude.{Some};
ghost use Rattle.answer_lines.specs.Printed.{date_text, day_time_text};
ghost use Rattle.answer_lines.specs.Moments.{TellsMoment};

use civil_dates::Date;
use service_days::Cover;
use std::fmt;

/// A date, shown as `YYYYMMDD`.
#[derive(Clone, Copy)]
pub struct ShownDate(pub Date);

impl fmt::Display for ShownDate {
    ghost output = { λ shown. Some (date_text shown.0) };

    fn fmt<W: fmt::Write>(&self, f: &mut fmt::Formatter<W>) -> fmt::Result {
        let year = self.0.year().unsigned_abs();
        let (month, day) = (self.0.month(), self.0.day());
        write!(f, "{year:04}{month:02}{day:02}")
    }
}

/// A time of a service day, shown as `YYYYMMDD HH:MM:SS`. Hours of 24 and more belong to the night after the date.
#[derive(Clone, Copy)]
pub struct DayTime {
    pub date: Date,
    /// Seconds from the start of the service day.
    pub seconds: u32,
}

impl fmt::Display for DayTime {
    ghost output = { λ t. Some (day_time_text t) };

    fn fmt<W: fmt::Write>(&self, f: &mut fmt::Formatter<W>) -> fmt::Result {
        let date = ShownDate(self.date);
        let hours = self.seconds / 3600;
        let minutes = self.seconds / 60 % 60;
        let seconds = self.seconds % 60;
        write!(f, "{date} {hours:02}:{minutes:02}:{seconds:02}")
    }
}

/// A moment, as a time of a service day.
pub fn day_time(cover: &Cover, moment: u32) -> DayTime
    ensures { TellsMoment cover.now moment result }
{
    let (date, seconds) = cover.split(moment);
    DayTime { date, seconds }
}
