//! Laws of the definitions that the contracts cite. Nothing is run.

ghost use Rattle.feed_timetable.specs.Laws.{DepartsByRow, HasKnownTrips, HasOneList, HasOneOrder};

/// A row of `frequencies.txt` has its trip depart at `start_time` and each `headway_secs` later, exactly as long as that is before
/// `end_time`.
pub fn departs_by_row()
    ensures { DepartsByRow }
{}

/// The departures of a trip are ordered by time, and there is one such order.
pub fn one_order()
    ensures { HasOneOrder }
{}

/// A feed and covered days have one list of instances. The days are dates, and the day before them is too.
pub fn one_list()
    ensures { HasOneList }
{}

/// Each instance is of a trip that the tables have.
pub fn trips_are_known()
    ensures { HasKnownTrips }
{}
