//! The operating system as what the program finds: folders, threads, a meter on standard error, and a teller of what a folder has.
#![tactic(auto)]

mod clock;
mod meter;
mod places;
mod replies;
mod system;
mod teller;

pub use places::stream_places;
pub use system::HostSystem;
