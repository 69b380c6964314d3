//! The memory in which trees are built before they are copied out.

use bumpalo::Bump;
use std::alloc::{AllocError, Global};

/// How many bytes an arena takes at first.
const FIRST_CHUNK: usize = 4096;

/// The memory of one worker's trees: what is built in it is given up together.
#[derive(Drop)]
pub struct Arena {
    bump: Bump,
}

impl Arena {
    /// An arena with a first chunk of memory.
    pub fn new(alloc: Global) -> Result<Arena, AllocError> {
        Ok(Arena {
            bump: Bump::try_with_capacity(alloc, FIRST_CHUNK)?,
        })
    }

    /// The allocator of trees that are built here.
    pub fn bump(&self) -> &Bump {
        &self.bump
    }

    /// Makes the arena's memory free again. If something that was forgotten still holds it, takes new memory in its place; if that is
    /// refused, the arena stays as it was.
    pub fn renew(&mut self, alloc: Global) -> Result<(), AllocError> {
        if self.bump.reset().is_err() {
            self.bump = Bump::try_with_capacity(alloc, FIRST_CHUNK)?;
        }
        Ok(())
    }
}
