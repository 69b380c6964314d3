//! Laws of the definitions that the contracts cite. Each is the contract of a function that does nothing.

ghost use Rattle.gtfs_text.specs.Laws.{MarksGoFromFront, SpacesGoFromEnds, TimesAreClockTimes};

/// A file is byte order marks and then what its records are read from, which doesn't begin with a mark.
pub fn marks_go_from_front()
    ensures { MarksGoFromFront }
{}

/// A field is spaces, what a sheet has of it, and spaces; what a sheet has neither begins nor ends with one.
pub fn spaces_go_from_ends()
    ensures { SpacesGoFromEnds }
{}

/// A text has a time exactly if it is hours, minutes and seconds in digits within their limits. The time is then 3600 times the hours, 60
/// times the minutes and the seconds.
pub fn times_are_clock_times()
    ensures { TimesAreClockTimes }
{}
