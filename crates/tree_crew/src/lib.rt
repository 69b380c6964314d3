//! Builds trees in many threads, while readers ask: workers build them, and the calling thread stores what they hand in and shows it.
#![tactic(auto)]

mod audience;
mod counting;
mod crew;
mod flushing;
mod held;
mod parted;
mod publishing;
mod taking;
mod threads;

pub use audience::Audience;
pub use counting::Counted;
pub use crew::Crew;
pub use held::Held;
pub use parted::Parted;
pub use threads::run_over;
