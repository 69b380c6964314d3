//! The first and the last day of service.

ghost use Rattle.std.specs.Prelude.{◌≡◌, ◌⊎◌, ◌||◌, ◌≤ℤ◌, Bool, IfOk};
ghost use Rattle.std.specs.List.{list_any};
ghost use Rattle.jiff_core.specs.declared.civil.date.Date.{Date as PlainDate};
ghost use Rattle.jiff_core.specs.Date.{epoch_day};
ghost use Rattle.service_span.specs.Looked.{is_extra, is_planned};
ghost use Rattle.service_span.specs.Spans.{IsSpan, IsSpanWhere};

use crate::looked::{Names, ServiceDates, is_named, named_services, removed_dates};
use crate::scan::row_span;
use civil_dates::Date;
use gtfs_tables::{CalendarDate, CalendarRow, Tables};
use service_days::is_added;
use std::alloc::{AllocError, Global};

/// The first and the last day of service.
#[derive(Clone, Copy)]
pub struct Span {
    pub first: Date,
    pub last: Date,
}

// The earlier one of two dates.
fn earlier(a: Date, b: Date) -> Date
    ensures one { (result ≡ a) ⊎ (result ≡ b) }
    ensures first { epoch_day result ≤ℤ epoch_day a }
    ensures second { epoch_day result ≤ℤ epoch_day b }
{
    if a <= b { a } else { b }
}

// The later one.
fn later(a: Date, b: Date) -> Date
    ensures one { (result ≡ a) ⊎ (result ≡ b) }
    ensures first { epoch_day a ≤ℤ epoch_day result }
    ensures second { epoch_day b ≤ℤ epoch_day result }
{
    if a <= b { b } else { a }
}

// The span of the dates of both.
fn joined(a: Option<Span>, b: Option<Span>) -> Option<Span>
    ensures { (p q : PlainDate → Bool) → IsSpanWhere p a → IsSpanWhere q b → IsSpanWhere (λ date. p date || q date) result }
{
    let Some(a) = a else {
        return b;
    };
    let Some(b) = b else {
        return Some(a);
    };
    Some(Span {
        first: earlier(a.first, b.first),
        last: later(a.last, b.last),
    })
}

// The span of the dates on which a calendar row has its service, if that is one of these, but for the dates that are removed.
fn planned_by<'a>(
    names: &Names<'a>,
    removed: &ServiceDates<'a>,
    row: &'a CalendarRow,
) -> Option<Span>
    ensures { IsSpanWhere (λ date. is_planned names.now removed.now date row.now) result }
{
    if is_named(names, row.service.as_str()) {
        row_span(removed, row)
    } else {
        None
    }
}

// The span of those dates of all rows.
fn planned_span<'a>(
    names: &Names<'a>,
    removed: &ServiceDates<'a>,
    calendar: &'a [CalendarRow],
) -> Option<Span>
    ensures { IsSpanWhere (λ date. list_any (is_planned names.now removed.now date) calendar.now) result }
{
    let mut span = None;
    for row in calendar {
        span = joined(span, planned_by(names, removed, row));
    }
    span
}

// The date that an exception adds to its service, if that is one of these.
fn added_by<'a>(names: &Names<'a>, row: &'a CalendarDate) -> Option<Span>
    ensures { IsSpanWhere (λ date. is_extra names.now date row.now) result }
{
    if is_added(row.change) && is_named(names, row.service.as_str()) {
        Some(Span {
            first: row.date,
            last: row.date,
        })
    } else {
        None
    }
}

// The span of those dates of all exceptions.
fn added_span<'a>(names: &Names<'a>, exceptions: &'a [CalendarDate]) -> Option<Span>
    ensures { IsSpanWhere (λ date. list_any (is_extra names.now date) exceptions.now) result }
{
    let mut span = None;
    for row in exceptions {
        span = joined(span, added_by(names, row));
    }
    span
}

/// The first and the last day of service of a feed; none if it has no day of service. It looks at the dates of a calendar row from both
/// ends, past unmarked weekdays and removed dates.
pub fn span_of(alloc: Global, tables: &Tables) -> Result<Option<Span>, AllocError>
    ensures { IfOk result (IsSpan tables.now) }
{
    let names = named_services(alloc, tables)?;
    let exceptions = tables.calendar_dates();
    let removed = removed_dates(alloc, exceptions)?;
    let planned = planned_span(&names, &removed, tables.calendar());
    Ok(joined(planned, added_span(&names, exceptions)))
}
