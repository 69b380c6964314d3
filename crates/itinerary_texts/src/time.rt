//! Times, as a feed has them and as the clocks of its zone show them.

use answer_lines::DayTime;
use arrayvec::ArrayString;
use jiff::Timestamp;
use jiff::civil::DateTime;
use jiff::tz::Offset;
use std::fmt;
use std::fmt::Write;

/// A time of a service day, as the feed has it and as a zone's clock shows it.
#[derive(Clone, Copy)]
pub struct Time {
    /// The service day, and the time of it.
    pub told: DayTime,
    /// The same on the zone's clock; none past the years that jiff knows.
    pub shown: Option<Shown>,
}

/// The clock of a zone, for those who show times. They needn't know how it keeps the zone's rule, nor load what that takes.
pub trait ZoneClock {
    /// A time of a service day, which the clock shows too.
    fn time(&self, told: DayTime) -> Time;
}

/// A moment, and the zone's offset from UTC at that moment.
#[derive(Clone, Copy)]
pub struct Shown {
    /// In seconds from 1970-01-01T00:00:00Z.
    pub moment: i64,
    /// In seconds, positive to the east of Greenwich.
    pub offset: i32,
    /// Whether the offset is known. Else the moment is taken by local time, with no offset.
    pub is_placed: bool,
}

impl Shown {
    // The moment and the offset, if jiff has them.
    fn instant(&self) -> Option<(Timestamp, Offset)> {
        let moment = Timestamp::from_second(self.moment).ok()?;
        let offset = Offset::from_seconds(self.offset).ok()?;
        Some((moment, offset))
    }

    // What the zone's clock shows.
    fn local(&self) -> Option<DateTime> {
        let (moment, offset) = self.instant()?;
        Some(offset.to_datetime(moment))
    }
}

impl Time {
    /// By the zone's clock with its offset, as ISO 8601 has it: `2024-01-03T01:10:00+01:00`. If the offset isn't known, it is left out.
    pub(crate) fn iso(&self) -> Option<ArrayString<38>> {
        let shown = self.shown?;
        if shown.is_placed {
            let (moment, offset) = shown.instant()?;
            return Some(moment.display_with_offset(offset));
        }
        let local = shown.local()?;
        let mut text = ArrayString::new();
        // It has 19 bytes, since the moment is one of whole seconds.
        let _ = write!(text, "{local}");
        Some(text)
    }

    /// The service day and its time with a space between them: `20240102 25:10:00`.
    pub(crate) fn told(&self) -> ArrayString<24> {
        let mut text = ArrayString::new();
        // It has at most 22 bytes, since the seconds are fewer than 2^32.
        let _ = write!(text, "{}", self.told);
        text
    }
}

/// What the zone's clock shows, with seconds if there are some: `2024-01-03 01:10`. Past the years that jiff knows it is the service day
/// and its time.
impl fmt::Display for Time {
    fn fmt<W: fmt::Write>(&self, f: &mut fmt::Formatter<W>) -> fmt::Result {
        let Some(at) = self.shown.and_then(|shown| shown.local()) else {
            return write!(f, "{}", self.told);
        };
        let (year, month, day) = (at.year(), at.month(), at.day());
        let (hour, minute, second) = (at.hour(), at.minute(), at.second());
        write!(f, "{year:04}-{month:02}-{day:02} {hour:02}:{minute:02}")?;
        if second != 0 {
            write!(f, ":{second:02}")?;
        }
        Ok(())
    }
}
