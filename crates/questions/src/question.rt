//! What is asked.

use civil_dates::Date;

/// A last time to leave at.
#[derive(Clone, Copy)]
pub struct Until {
    pub day: Date,
    /// The time of that service day, in seconds from its start.
    pub seconds: u32,
}

/// Which connections are asked for.
#[derive(Clone, Copy)]
pub struct Within {
    /// The last time to leave at; without one it is the last covered moment.
    pub until: Option<Until>,
    /// How many of them at most: the first ones, by departure and then by arrival.
    pub next: Option<u16>,
}

/// From which place to which, and when.
#[derive(Clone, Copy)]
pub struct Question<'a> {
    /// The id of the stop or the station to leave from.
    pub from: &'a str,
    /// The id of the stop or the station to go to.
    pub to: &'a str,
    pub day: Date,
    /// The time of that service day, in seconds from its start.
    pub seconds: u32,
    /// Which connections are asked for, if they are.
    pub within: Option<Within>,
}
