//! The texts of the trees that were built: read, and written again.

use pattern_tree::PatternTree;
use std::alloc::{AllocError, Global};
use std::fmt;
use tree_codec::{CodecFault, decode, encode};

/// What reading texts and writing them again gave, shown as `TREES BYTES` and whether the same bytes were written.
#[derive(Clone, Copy, Debug, PartialEq, Eq)]
pub struct Rewritten {
    pub trees: usize,
    pub bytes: usize,
    pub same: bool,
}

impl fmt::Display for Rewritten {
    fn fmt<W: fmt::Write>(&self, f: &mut fmt::Formatter<W>) -> fmt::Result {
        let same = if self.same { "same" } else { "changed" };
        write!(f, "{} {} {same}", self.trees, self.bytes)
    }
}

/// Reads `count` texts, one after the other, over the number of stops. It ends early at bytes that begin with no text, and fails only if
/// memory runs out.
pub fn read_texts(
    alloc: Global,
    texts: &[u8],
    stops: usize,
    count: usize,
) -> Result<Vec<PatternTree<Global>>, AllocError> {
    let mut trees = Vec::new(alloc);
    let mut rest = texts;
    for _ in 0..count {
        match decode(alloc, rest, stops) {
            Ok((tree, used)) => {
                trees.push(tree)?;
                rest = &rest[used..];
            }
            Err(CodecFault::Memory) => return Err(AllocError),
            Err(_) => break,
        }
    }
    Ok(trees)
}

/// Writes the texts of the trees, one after the other. It fails only if memory runs out.
pub fn write_texts(alloc: Global, trees: &[PatternTree<Global>]) -> Result<Vec<u8>, AllocError> {
    let mut texts = Vec::new(alloc);
    for tree in trees {
        encode(tree, &mut texts)?;
    }
    Ok(texts)
}
