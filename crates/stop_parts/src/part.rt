//! A part of the stops.

ghost use Rattle.std.specs.Prelude.{◌≡◌, ◌<◌, ◌≤◌, MatchOption, count_by};
ghost use Rattle.std.specs.List.{range_with_len};
ghost use Rattle.stop_parts.specs.Parts.{Share, is_of, whole};

use std::marker::Model;

/// One of `count` parts of the stops of a timetable: those whose number leaves `index` after division by `count`. So neighbours in the
/// order of the numbers go to different parts, and no part has two stops more than another.
#[derive(Clone, Copy)]
pub struct Part {
    index: u32,
    count: u32,
}

impl Model for Part {
    ghost use Rattle.std.specs.Prelude.{◌<◌};
    ghost use Rattle.stop_parts.specs.Parts.{Share};

    ghost Value = { Share };

    ghost view = { λ p. record { index = p.index; count = p.count } };

    ghost invariant = { λ p. p.index < p.count };

    ghost inverse = { λ s. record { index = s.index; count = s.count } };
}

impl Part {
    /// The part of this number among `count` parts, counted from 0; none if there is no such part.
    pub fn new(index: u32, count: u32) -> Option<Part>
        ensures { MatchOption result (count ≤ index)
            (λ part. (part ≡ record { index = index; count = count }) × (index < count)) }
    {
        if index < count {
            Some(Part { index, count })
        } else {
            None
        }
    }

    /// All stops as one part.
    pub fn whole() -> Part
        ensures { result ≡ whole }
    {
        Part { index: 0, count: 1 }
    }

    /// Whether the part has the stop of that number.
    pub fn has(self, stop: usize) -> bool
        ensures { result ≡ is_of self stop }
    {
        stop % (self.count as usize) == self.index as usize
    }

    /// How many of the first `stops` stops are of the part.
    pub fn among(self, stops: usize) -> usize
        ensures count { result ≡ count_by (is_of self) (range_with_len 0 stops) }
        ensures most { result ≤ stops }
    {
        let mut count = 0;
        for stop in 0..stops {
            if self.has(stop) {
                count += 1;
            }
        }
        count
    }
}
