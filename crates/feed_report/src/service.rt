//! The days of service of a feed.

ghost use Rattle.std.specs.Prelude.{IfOk};
ghost use Rattle.feed_report.specs.ServiceDays.{AreServiceDays, IsWeek, IsWeekAround};

use civil_dates::Date;
use gtfs_tables::Tables;
use service_span::{DayTrips, Span, span_of, trips_by_day};
use std::alloc::{AllocError, Global};

/// The days of service of a feed that has some.
#[derive(Drop)]
pub struct Service {
    pub span: Span,
    /// How many trips run on each of the seven days around a date, or from the first day of service on.
    pub week: Vec<DayTrips>,
}

// The first of the days around a date, and how many they are.
fn week_around(date: Date) -> (Date, u8)
    ensures { IsWeekAround date result.0 result.1 }
{
    let mut first = date;
    for before in 0..3 {
        let Ok(day) = first.yesterday() else {
            return (first, before + 4);
        };
        if day.year() < 0 {
            return (first, before + 4);
        }
        first = day;
    }
    (first, 7)
}

// The first of the seven days, and how many they are.
fn week(date: Option<Date>, span: &Span) -> (Date, u8)
    ensures { IsWeek date span.now result.0 result.1 }
{
    match date {
        None => (span.first, 7),
        Some(date) => week_around(date),
    }
}

/// The days of service, with the seven days around the date, or those from the first day of service on; none if the feed has no day of
/// service.
pub(crate) fn service_of(
    alloc: Global,
    tables: &Tables,
    date: Option<Date>,
) -> Result<Option<Service>, AllocError>
    ensures { IfOk result (AreServiceDays tables.now date) }
{
    let Some(span) = span_of(alloc, tables)? else {
        return Ok(None);
    };
    let (first, days) = week(date, &span);
    let week = trips_by_day(alloc, tables, first, days)?;
    Ok(Some(Service { span, week }))
}
