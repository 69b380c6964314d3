//! A table of travel times between the stops of two lists, by their ids: why there is none, and its lines as they are printed.
#![tactic(auto)]

mod asking;
mod batches;
mod csv_lines;
mod place;

pub use asking::{Asked, Matrix, matrix_of};
pub use batches::print_matrix;
pub use place::Place;
