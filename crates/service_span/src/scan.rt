//! The first and the last date on which a row of the calendar has its service.

ghost use Rattle.std.specs.Prelude.{◌≡◌, ◌&&◌, not, false, slice_index_or};
ghost use Rattle.std.specs.List.{list_any};
ghost use Rattle.jiff_core.specs.Date.{weekday_of};
ghost use Rattle.service_span.specs.Looked.{is_removed, keeps, IsFirst, IsLast};
ghost use Rattle.service_span.specs.Spans.{IsSpanWhere};

use crate::looked::{ServiceDates, day_number};
use crate::span::Span;
use civil_dates::Date;
use gtfs_tables::CalendarRow;
use service_days::is_marked;

// Whether the date's weekday is marked, and the date isn't removed.
fn is_kept<'a>(removed: &ServiceDates<'a>, row: &'a CalendarRow, date: Date) -> bool
    ensures { result ≡ (slice_index_or row.now.weekdays (weekday_of date) false && not (is_removed removed.now row.now.service date)) }
{
    is_marked(&row.weekdays, date) && !removed.contains(&(row.service.as_str(), day_number(date)))
}

// Whether some weekday is marked.
fn has_weekday(weekdays: &[bool; 7]) -> bool
    ensures { result ≡ list_any (λ marked. marked) weekdays.now }
{
    weekdays.iter().any(|marked| *marked)
}

// The first date on which the row has its service, but for the dates that are removed.
fn first_kept<'a>(removed: &ServiceDates<'a>, row: &'a CalendarRow) -> Option<Date>
    ensures { IsFirst (keeps removed.now row.now) result }
{
    let mut date = row.start;
    'dates: while date <= row.end {
        if is_kept(removed, row, date) {
            return Some(date);
        }
        let Ok(next) = date.tomorrow() else {
            return None;
        };
        date = next;
    }
    None
}

// The last such date.
fn last_kept<'a>(removed: &ServiceDates<'a>, row: &'a CalendarRow) -> Option<Date>
    ensures { IsLast (keeps removed.now row.now) result }
{
    let mut date = row.end;
    'dates: while row.start <= date {
        if is_kept(removed, row, date) {
            return Some(date);
        }
        let Ok(next) = date.yesterday() else {
            return None;
        };
        date = next;
    }
    None
}

/// The first and the last date on which the row has its service, but for the dates that are removed. From each
/// end it passes by the dates of unmarked weekdays and removed dates: at most seven for each of the latter, and six more.
pub(crate) fn row_span<'a>(removed: &ServiceDates<'a>, row: &'a CalendarRow) -> Option<Span>
    ensures { IsSpanWhere (keeps removed.now row.now) result }
{
    if !has_weekday(&row.weekdays) {
        return None;
    }
    let first = first_kept(removed, row)?;
    let last = last_kept(removed, row)?;
    Some(Span { first, last })
}
