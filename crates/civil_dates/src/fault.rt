//! What is asked of the calendar and isn't there.

use thiserror::Error;

/// The calendar has no such day: it goes from -9999-01-01 to 9999-12-31.
#[derive(Clone, Copy, Debug, PartialEq, Eq, Error)]
#[error("no day of the calendar")]
pub struct NoDate;
