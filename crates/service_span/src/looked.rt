//! What is looked up of services and dates.

ghost use Rattle.std.specs.Prelude.{◌≡◌, ◌≤◌, ◌+ℤ◌, pos, ℕ, List, IfOk};
ghost use Rattle.std.specs.List.{list_any};
ghost use Rattle.std.specs.Str.{bytes_eq};
ghost use Rattle.jiff_core.specs.declared.civil.date.Date.{Date as PlainDate};
ghost use Rattle.jiff_core.specs.Date.{epoch_day};
ghost use Rattle.service_days.specs.Runs.{removes};
ghost use Rattle.service_span.specs.Days.{service_of};
ghost use Rattle.service_span.specs.Looked.{day_number, is_member, is_removed};

use civil_dates::Date;
use gtfs_tables::{CalendarDate, Tables};
use service_days::is_added;
use std::alloc::{AllocError, Global};
use std::collections::BTreeSet;

/// Ids of services.
pub(crate) type Names<'a> = BTreeSet<&'a str>;

/// Dates of services, each with the service's id, as numbers of days.
pub(crate) type ServiceDates<'a> = BTreeSet<(&'a str, u32)>;

/// How many days a date lies after -9999-01-01.
pub(crate) fn day_number(date: Date) -> u32
    ensures value { result ≡ day_number date }
    ensures number { epoch_day date +ℤ pos 4_371_587 ≡ pos result }
    ensures bound { result ≤ 7_304_483 }
{
    date.days_since_min()
}

/// The services that trips name.
pub(crate) fn named_services(alloc: Global, tables: &Tables) -> Result<Names<'_>, AllocError>
    ensures { IfOk result (λ names. (service : List ℕ)
        → is_member names service ≡ list_any (λ trip. bytes_eq (service_of tables.now trip) service) tables.now.trips) }
{
    let services = tables.services();
    let mut names = BTreeSet::new(alloc);
    for trip in tables.trips() {
        names.insert(services[trip.service as usize].as_str())?;
    }
    Ok(names)
}

/// Whether a service is one of these.
pub(crate) fn is_named<'a>(names: &Names<'a>, service: &'a str) -> bool
    ensures { result ≡ is_member names.now service.now }
{
    names.contains(service)
}

/// The dates that exceptions remove.
pub(crate) fn removed_dates<'a>(
    alloc: Global,
    exceptions: &'a [CalendarDate],
) -> Result<ServiceDates<'a>, AllocError>
    ensures { IfOk result (λ removed. (service : List ℕ) (date : PlainDate)
        → is_removed removed service date ≡ list_any (removes service date) exceptions.now) }
{
    let mut removed = BTreeSet::new(alloc);
    for row in exceptions {
        if !is_added(row.change) {
            removed.insert((row.service.as_str(), day_number(row.date)))?;
        }
    }
    Ok(removed)
}
