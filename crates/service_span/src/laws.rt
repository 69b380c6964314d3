//! Laws of the definitions, each a function whose clause states it. Nothing is run.

ghost use Rattle.service_span.specs.Laws.{ServiceDaysHaveTrips};

/// A date is a day of service exactly if some trip runs on it.
pub fn service_days_have_trips()
    ensures { ServiceDaysHaveTrips }
{}
