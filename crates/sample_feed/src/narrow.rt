//! Texts of trees as stores of the first version have them.

use std::alloc::{AllocError, Global};

/// The text of a tree in which the number of a stop takes two bytes, made from that in which it takes four. No program writes such a text
/// any more.
pub fn narrowed(alloc: Global, wide: &[u8]) -> Result<Vec<u8>, AllocError> {
    let mut text = Vec::new(alloc);
    // How many numbers come before the next number of nodes, and whether the last of them says how many ends follow.
    let mut left: u16 = 1;
    let mut counts = false;
    for number in wide.chunks_exact(4) {
        let [_, _, high, low] = *number else {
            break;
        };
        if left == 0 {
            text.extend_from_slice(number)?;
            left = 3;
            counts = true;
            continue;
        }
        text.extend_from_slice(&[high, low])?;
        left -= 1;
        if left == 0 && counts {
            left = u16::from_be_bytes([high, low]);
            counts = false;
        }
    }
    Ok(text)
}
