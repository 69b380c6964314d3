//! What is reported of an answer: its journeys with the names that the feed has. What is reported is the answer that it is made of; names
//! are looked up only for display. The texts are made by `itinerary_texts`.
#![tactic(auto)]

mod repeats;
mod stages;
mod telling;
mod through;
mod wanted;

pub use telling::{Asked, Found, itinerary_by, itinerary_of, places_of};
