//! What a feed says to people of its stops, trips and routes, by their ids: texts to be shown, on which no answer stands.
#![tactic(auto)]

mod files;
mod named;
mod names;
mod rows;
mod tables;
mod texts;

pub use files::{open_names, sheet_of};
pub use named::{Place, Route, Trip};
pub use names::{NameSheets, Names};
pub use rows::first_rows;
pub use texts::{NamedRow, RouteName, StopName, TripName, names_of};
