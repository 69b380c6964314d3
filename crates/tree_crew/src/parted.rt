//! Of which part of the stops the taken trees are.

use std::marker::Brand;

/// The part of the stops whose trees are taken in a build. What a taker takes is known only by its type, so the type names the part; a
/// caller picks it where it starts a build.
pub trait Parted {
    ghost use Rattle.stop_parts.specs.Parts.{Share};

    /// The part.
    ghost part: { Share };
}

impl Parted for Brand {
    ghost use Rattle.stop_parts.specs.Parts.{whole};

    ghost part = { whole };
}
