//! Of the journeys with the same numbers that leave as late one that walks least, over all journeys of a timetable.
#![tactic(auto)]

mod boarding;
mod layers;
mod least;
mod path;
mod search;
mod walking;
mod way;
mod ways;

pub use least::least_walk;
