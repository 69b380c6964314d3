//! The pairs that were put into a tree last.

ghost use Rattle.std.specs.Prelude.{IsTrue, IfOk, List, length};
ghost use Rattle.std.specs.List.{Contains};
ghost use Rattle.pattern_tree.specs.Forest.{Pair};
ghost use Rattle.pattern_building.specs.Latest.{AreIn, IsIn};

use rounds::Path;
use std::alloc::{AllocError, Global};
use timetable::StopId;

// How many places there are at most: those of a large timetable are shared.
const MOST_PLACES: usize = 32_768;

// A pair that was put in.
#[derive(Clone, Drop)]
struct Known {
    path: Path,
    end: StopId,
}

// The two pairs that were put in last for a number of rides and a stop. Two patterns often come in turn.
#[derive(Clone, Drop)]
struct Place {
    last: Option<Known>,
    earlier: Option<Known>,
}

/// The two pairs that were put in last at each place: there is one for each number of rides and each stop, as far as there is room for
/// them.
#[derive(Drop)]
pub(crate) struct Latest {
    stops: usize,
    places: Vec<Place>,
}

// Whether a pair that is remembered is this one.
fn is_known(pair: &Option<Known>, path: &[(StopId, StopId)], end: StopId) -> bool
    ensures { IsTrue result → (content : List Pair) → IsIn content pair.now → Contains content (path.now, end) }
{
    match pair {
        Some(known) => known.end == end && known.path.as_slice() == path,
        None => false,
    }
}

impl Latest {
    /// Nothing yet, with places for paths of up to `rides` rides between `stops` stops. It takes memory only here.
    pub(crate) fn empty(alloc: Global, rides: usize, stops: usize) -> Result<Self, AllocError>
        ensures { IfOk result (λ latest. (content : List Pair) → AreIn content latest) }
    {
        let count = rides.saturating_mul(stops).min(MOST_PLACES);
        let empty = Place {
            last: None,
            earlier: None,
        };
        Ok(Latest {
            stops,
            places: vec![in alloc; empty; count]?,
        })
    }

    // The place of paths of `rides` rides, one or more, to the stop `end`. It is divided only if places are shared.
    fn place(&self, rides: usize, end: StopId) -> usize {
        let place = rides
            .wrapping_sub(1)
            .wrapping_mul(self.stops)
            .wrapping_add(end.number());
        if place < self.places.len() {
            place
        } else {
            place.checked_rem(self.places.len()).unwrap_or(0)
        }
    }

    /// Whether the pair is one of the two that were put in last at its place.
    pub(crate) fn has(&self, path: &[(StopId, StopId)], end: StopId) -> bool
        ensures { IsTrue result → (content : List Pair) → AreIn content self.now → Contains content (path.now, end) }
    {
        match self.places.get(self.place(path.len(), end)) {
            Some(place) => is_known(&place.last, path, end) || is_known(&place.earlier, path, end),
            None => false,
        }
    }

    /// Remembers the pair at its place, beside the one that was put in before.
    pub(crate) fn put(&mut self, path: &[(StopId, StopId)], end: StopId)
        ensures { (content : List Pair) → AreIn content self.old → Contains content (path.now, end) → AreIn content self.new }
    {
        let place = self.place(path.len(), end);
        if place < self.places.len() {
            let mut known = Known {
                path: Path::new(),
                end,
            };
            if known.path.try_extend_from_slice(path).is_ok() {
                let earlier = self.places[place].last.take();
                self.places[place] = Place {
                    last: Some(known),
                    earlier,
                };
            }
        }
    }
}
