//! The names that a text has.

use feed_names::{NameSheets, Names};
use std::alloc::{AllocError, Global};

/// The names of the stop that one leaves and of these stops. It fails only if memory runs out.
pub(crate) fn names_of<'s>(
    alloc: Global,
    sheets: &NameSheets,
    from: &'s str,
    stops: Vec<&'s str>,
) -> Result<Names, AllocError> {
    let mut ids = stops;
    ids.push(from)?;
    Names::of(alloc, sheets, &ids, &[])
}
