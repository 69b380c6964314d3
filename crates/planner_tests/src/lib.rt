//! The tests of lives: what each order is replied, several lives of one file, and what every crash of a life leaves. And those of the
//! planner's machine: which steps are idle, and what it recovers after crashes of a put. Then those of building in many threads while
//! readers ask, and of replies to questions line by line. They stand apart, since some start threads.
#![tactic(auto)]

#[cfg(test)]
mod tests;
#[cfg(test)]
mod threads;
