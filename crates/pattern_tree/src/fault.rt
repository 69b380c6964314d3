//! Why a tree isn't made or doesn't grow.

ghost use Rattle.std.specs.Prelude.{◌≡◌};

use std::alloc::AllocError;
use thiserror::Error;

/// The faults of a tree's growth, with the code and the name under which the program prints each. Either leaves the
/// tree as it was.
#[derive(Clone, Copy, Debug, PartialEq, Eq, Error)]
pub enum TreeFault {
    /// The tree would have more nodes or more ends than its limit.
    #[error("N1 TooLarge")]
    TooLarge,
    /// Memory ran out.
    #[error("N2 Memory")]
    Memory,
}

impl From<AllocError> for TreeFault {
    ghost use Rattle.pattern_tree.specs.declared.fault.TreeFault.{TreeFault};

    ghost from_gives = { λ _ fault. fault ≡ TreeFault.Memory };

    fn from(_error: AllocError) -> TreeFault {
        TreeFault::Memory
    }
}
