//! What the program's questions are asked of: a feed's timetable on the covered days, and the ids of its stops and trips; or the
//! fault of the feed or its days. It also makes what is printed of a journey: its numbers, and its rides and walks with ids and times.
#![tactic(auto)]

mod basis;
mod numbered;
mod points;
mod stages;

pub use basis::{Basis, basis_of};
pub use points::{points_of, tell, told};
pub use service_span::{Idle, Span};
