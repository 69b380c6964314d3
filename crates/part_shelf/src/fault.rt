//! Why a part isn't taken, and why a text isn't read.

ghost use Rattle.std.specs.Prelude.{◌≡◌};
ghost use Rattle.part_shelf.specs.Reading.{of_text};

use merging::ShelfFault;
use store_faults::RecoverFault;
use thiserror::Error;
use timetable::StopId;

/// Why the store of a part isn't added.
#[derive(Clone, Copy, Debug, PartialEq, Eq, Error)]
pub enum PartFault {
    /// Its file isn't a store of the timetable and the rides, or wasn't read, or memory ran out.
    #[error("{0}")]
    Store(RecoverFault),
    /// Its tree of that stop isn't that of the part of that index, which was added before.
    #[error("M2 OtherTree")]
    OtherTree { stop: StopId, part: usize },
    /// A tree wasn't read once more.
    #[error("{0}")]
    Shelf(ShelfFault),
}

/// Why the text of a tree isn't read.
#[derive(Clone, Copy, Debug, PartialEq, Eq)]
pub(crate) enum TextFault {
    /// A read failed.
    Device,
    /// Memory ran out.
    Memory,
    /// A read gave other bytes than before.
    Changed,
}

/// Why the text of a tree of that part isn't read.
pub(crate) fn of_text(part: usize, fault: TextFault) -> ShelfFault
    ensures { result ≡ of_text part fault }
{
    match fault {
        TextFault::Device => ShelfFault::Device(part),
        TextFault::Memory => ShelfFault::Memory,
        TextFault::Changed => ShelfFault::Changed(part),
    }
}
