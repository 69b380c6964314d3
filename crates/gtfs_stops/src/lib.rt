//! Stops, stations and the transfers between them: stops.txt and transfers.txt.
#![tactic(auto)]

pub mod laws;
pub mod stops;
pub mod transfers;

pub use stops::{StopIds, StopRows, read_stops};
pub use transfers::{TransferRows, read_transfers};
