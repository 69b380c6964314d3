//! Why there is no sheet of a file's bytes.

ghost use Rattle.std.specs.Prelude.{◌≡◌};
ghost use Rattle.gtfs_text.specs.declared.fault.SheetFault.TheVariants.{Memory};

use std::alloc::{AllocError, AllocFailed};

/// Why there is no sheet of a file's bytes.
#[derive(Clone, Copy)]
pub enum SheetFault {
    /// The record of this number is the first that isn't UTF-8. Record 0 is the header.
    BadRecord(usize),
    /// Memory was refused.
    Memory,
}

impl From<AllocError> for SheetFault {
    ghost from_gives = { λ _ e. e ≡ Memory };

    fn from(_error: AllocError) -> SheetFault {
        SheetFault::Memory
    }
}

impl<T: Drop> From<AllocFailed<T>> for SheetFault {
    ghost from_gives = { λ _ e. e ≡ Memory };

    fn from(_error: AllocFailed<T>) -> SheetFault {
        SheetFault::Memory
    }
}
