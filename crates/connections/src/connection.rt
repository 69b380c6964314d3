//! Connections, and the moments between which one leaves for them.

use pattern_query::Point;

/// When one may leave: from the first of these moments to the last, in seconds from the start of the first covered day. If the last is
/// before the first, there is no such moment.
#[derive(Clone, Copy)]
pub struct Window {
    pub first: u32,
    pub last: u32,
}

/// A journey with a ride, and the last moment at which one can leave for it, in seconds from the start of the first covered day. One who
/// leaves then walks to where the journey boards, and is just in time.
#[derive(Drop)]
pub struct Connection {
    pub departure: u32,
    pub journey: Point,
}
