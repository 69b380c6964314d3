//! How long one may be on the way.

ghost use Rattle.std.specs.Int.{IsInRange};

/// How many minutes one is on the way at most: up to those of 14 days.
#[derive(Clone, Copy)]
pub struct Minutes {
    pub number: u16,
    pub ghost in_range: { IsInRange 0 20160 number },
}
