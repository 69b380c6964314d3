//! Who hears how far a long work is.

/// What a long work does again and again.
#[derive(Clone, Copy)]
pub enum Done {
    /// A tree is stored, by a build or a merge.
    Stored,
    /// A stored tree is audited.
    Audited,
    /// A tree of a store of the version before is stored in the new one.
    Migrated,
    /// A row of a table is printed.
    Printed,
}

/// Hears how much of a work is done: once at the start, then each time that some more is, and at last that no more comes. The thread that
/// called for the work calls it.
pub trait Progress {
    /// It is done `times` times now, of `of` times.
    fn reached(&mut self, what: Done, times: usize, of: usize);

    /// The work has come to its end, or was ended by a fault.
    fn ended(&mut self);
}

/// Hears it, and does nothing.
#[derive(Clone, Copy)]
pub struct Silent;

impl Progress for Silent {
    fn reached(&mut self, _what: Done, _times: usize, _of: usize) {}

    fn ended(&mut self) {}
}
