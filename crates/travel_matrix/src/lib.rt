//! Tables of travel times: for each stop to leave from and each stop to go to, how long one is on the way over the seconds of a window.
//! Their rows are worked out in many threads.
#![tactic(auto)]

mod crew;
mod row;
mod rows;
mod window;

pub use crew::Crew;
pub use row::Row;
pub use rows::rows_of;
pub use window::Window;
