//! Where one can be who leaves a stop of a feed at a time of a day: each stop that one reaches, with when and by how many rides. And how
//! long one is on the way, over the seconds of a window.
#![tactic(auto)]

mod telling;
mod timing;

pub use telling::reach_from;
pub use timing::times_from;
