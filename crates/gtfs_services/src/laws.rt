//! Laws of the definitions.

ghost use Rattle.gtfs_services.specs.Dates.{DatesAreNamed};
ghost use Rattle.gtfs_services.specs.Laws.{TripsHaveTheirServices};

/// The date of a text that names a day of the calendar has the year, month and day that the text spells.
pub fn dates_are_named()
    ensures { DatesAreNamed }
{}

/// The service of the number that a row's trip has is the one that the row names by its `service_id`.
pub fn trips_have_their_services()
    ensures { TripsHaveTheirServices }
{}
