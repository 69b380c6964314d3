//! The bytes of a file of the sample feed's trees, only by the layout.

use std::alloc::Global;
use std::test::Fail;
use timetable::{Timetable, Width};

// The texts of the trees, by hand: the source, the number of first nodes, and for each node its stops of boarding and alighting,
// the number of ends, the ends, the number of children and the children.

/// The text of A's tree: B, and on from there D; C, and on foot E; D.
pub const A: &[u8] =
    b"\x00\x00\x00\x00\x00\x00\x00\x03\x00\x00\x00\x00\x00\x00\x00\x01\x00\x00\x00\x01\x00\x00\x00\x01\x00\x00\x00\x01\
    \x00\x00\x00\x01\x00\x00\x00\x03\x00\x00\x00\x01\x00\x00\x00\x03\x00\x00\x00\x00\
    \x00\x00\x00\x00\x00\x00\x00\x02\x00\x00\x00\x02\x00\x00\x00\x02\x00\x00\x00\x04\x00\x00\x00\x00\
    \x00\x00\x00\x00\x00\x00\x00\x03\x00\x00\x00\x01\x00\x00\x00\x03\x00\x00\x00\x00";

/// That of B's: C, and on foot E; D.
pub const B: &[u8] =
    b"\x00\x00\x00\x01\x00\x00\x00\x02\x00\x00\x00\x01\x00\x00\x00\x02\x00\x00\x00\x02\x00\x00\x00\x02\x00\x00\x00\x04\x00\x00\x00\x00\
    \x00\x00\x00\x01\x00\x00\x00\x03\x00\x00\x00\x01\x00\x00\x00\x03\x00\x00\x00\x00";

/// From C no ride departs.
pub const C: &[u8] = b"\x00\x00\x00\x02\x00\x00\x00\x00";

/// Nor from D.
pub const D: &[u8] = b"\x00\x00\x00\x03\x00\x00\x00\x00";

/// Nor from E.
pub const E: &[u8] = b"\x00\x00\x00\x04\x00\x00\x00\x00";

/// The texts of all five.
pub const TEXTS: [&[u8]; 5] = [A, B, C, D, E];

/// The header of a file for a timetable and at most `rides` rides, its gate open.
pub fn header_of(alloc: Global, table: &Timetable, rides: u8) -> Result<Vec<u8>, Fail> {
    let mut canonical = Vec::new(alloc);
    table.write_canonical(Width::Four, &mut canonical)?;
    let mut header = b"\xA5TPSTORE\x02".to_vec(alloc)?;
    header.push(rides)?;
    header.extend_from_slice(&u32::try_from(canonical.len())?.to_be_bytes())?;
    header.extend_from_slice(&canonical)?;
    Ok(header)
}

/// Adds an open section with that text.
pub fn put_section(file: &mut Vec<u8>, text: &[u8]) -> Result<(), Fail> {
    file.push(0xA5)?;
    file.extend_from_slice(&u32::try_from(text.len())?.to_be_bytes())?;
    file.extend_from_slice(text)?;
    Ok(())
}

/// The whole file of the trees with these texts.
pub fn file_of(alloc: Global, header: &[u8], texts: &[&[u8]]) -> Result<Vec<u8>, Fail> {
    let mut file = header.to_vec(alloc)?;
    for text in texts {
        put_section(&mut file, text)?;
    }
    file.push(0)?;
    Ok(file)
}
