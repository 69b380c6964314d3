//! Connections between two stops or places within a window of departures: the best journeys with a ride, each with the last moment at which
//! one can leave for it.
#![tactic(auto)]

mod asking;
mod connection;
mod first;
mod first_asked;
mod least;
mod moments;
mod scanning;

pub use asking::ask_connections;
pub use connection::{Connection, Window};
pub use first::{First, scan_first};
pub use first_asked::ask_first;
pub use least::walk_least;
pub use scanning::scan_connections;
