//! The text of a GTFS feed: a file's bytes as a header and rows of fields, and the values that fields spell.
//!
//! A feed is a set of CSV files (GTFS Schedule reference, "File requirements"). [`Sheet`] is one of them;
//! [`whole`], [`time`] and [`date`] read a field's text by its type (the reference's "Field types").
#![tactic(auto)]

mod clock;
mod comma_bits;
mod commas;
mod fault;
pub mod laws;
mod line_fields;
mod lines;
mod marks;
mod packed;
mod packed_records;
mod records;
mod row;
mod sheet;
mod spaces;
mod values;

pub use fault::SheetFault;
pub use sheet::Sheet;
pub use values::{date, time, whole};
