//! The clock of a zone.

use answer_lines::DayTime;
use civil_dates::{Date, plain};
use itinerary_texts::{Shown, Time, ZoneClock};
use jiff::tz::TimeZone;
use jiff::{Error, SignedDuration, civil};
use jiff_tz::TimeZone as PlainZone;

// The rule of a local time whose offset from UTC isn't known (the abbreviation `-00` of the tz database, "Theory and pragmatics").
const UNPLACED: &str = "<-00>0";

/// The clock of a zone.
#[derive(Clone, Copy)]
pub(crate) struct Clock {
    zone: PlainZone<'static>,
    // Whether it is known how far the zone is from UTC.
    is_placed: bool,
}

impl Clock {
    /// The clock of a zone's POSIX rule, as `CET-1CEST,M3.5.0,M10.5.0/3`; that of UTC if the text is none. Of the rule `<-00>0` it isn't
    /// known how far local time is from UTC.
    pub(crate) fn of(rule: &str) -> Clock {
        Clock {
            zone: TimeZone::posix(rule).unwrap_or(TimeZone::UTC).to_plain(),
            is_placed: rule != UNPLACED,
        }
    }

    // Noon of the service day by the zone's clock, twelve hours back, and the seconds on (GTFS Schedule reference, "Field types", Time).
    fn shown(&self, day: Date, seconds: u32) -> Result<Shown, Error> {
        let zone = TimeZone::from_plain(self.zone);
        let noon = civil::Date::from_plain(plain(day)).at(12, 0, 0, 0);
        let noon = noon.to_zoned(zone)?.timestamp();
        let moment = noon.checked_add(SignedDuration::from_secs(i64::from(seconds) - 43_200))?;
        Ok(Shown {
            moment: moment.as_second(),
            offset: zone.to_offset(moment).seconds(),
            is_placed: self.is_placed,
        })
    }
}

impl ZoneClock for Clock {
    fn time(&self, told: DayTime) -> Time {
        let shown = self.shown(told.date, told.seconds).ok();
        Time { told, shown }
    }
}
